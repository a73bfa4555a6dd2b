// Which items of a table are shown, and which turns of loops are folded.

use crate::building::{Row, Timeline};
use base::tree::{Bounds, Part};
use outline::Outlined;
use std::alloc::{AllocError, Global};

/// A line of the table, by numbers of items.
#[derive(Clone, Copy, Debug)]
pub enum Line {
    Item(usize),
    /// These turns show what the one before them shows.
    Same(Turns),
    /// These turns are folded, up to the next `Close`.
    Open(Turns),
    Close,
    /// So many items are left out.
    Left(usize),
}

/// Turns of a loop in a row.
#[derive(Clone, Copy, Debug)]
pub struct Turns {
    /// The first item of the first turn and of the last one.
    pub first: usize,
    pub last: usize,
    /// How many loops are around the loop: the place of its value in the list of an item's loops.
    pub level: usize,
    pub turns: usize,
    pub items: usize,
}

// So many different turns of a loop are shown at its begin.
const FIRST_TURNS: usize = 3;

// So many items are shown at most, and no fewer than so many.
const MOST_SHOWN: usize = 3_000;

const LEAST_SHOWN: usize = 100;

// So many fields are shown in all, unless they are those of the fewest items that are shown.
const MOST_FIELDS: usize = 24_000;

// A turn, and how many turns behind it show the same.
#[derive(Clone, Copy)]
struct Group {
    turn: usize,
    more: usize,
}

// A loop of which some turns are shown.
#[derive(Clone, Copy)]
struct Loop {
    // Its first item, how many items a turn has, and how many turns have items that are shown.
    first: usize,
    items: usize,
    turns: usize,
    level: usize,
}

impl Loop {
    // The first item of a turn.
    fn item(&self, turn: usize) -> usize {
        self.first.saturating_add(self.items.saturating_mul(turn))
    }

    fn turns(&self, turn: usize, turns: usize) -> Turns {
        Turns {
            first: self.item(turn),
            last: self.item(turn.saturating_add(turns).saturating_sub(1)),
            level: self.level,
            turns,
            items: self.items.saturating_mul(turns),
        }
    }
}

// How many items a part has; a number above the greatest is kept as that.
#[cycle(count)]
fn count(part: &Part) -> usize {
    match part {
        Part::Host(_) | Part::Target(_, _) | Part::Alone(_, _) => 1,
        Part::Block(all) => count_all(all),
        Part::Loop(bounds, body) => turns_of(bounds).saturating_mul(count_all(body)),
        Part::Data(_, body) => count_all(body).saturating_add(2),
    }
}

#[cycle(count)]
fn count_all(parts: &[Part]) -> usize {
    let mut total = 0usize;
    'parts: for part in parts {
        total = total.saturating_add(count(part));
    }
    total
}

fn turns_of(bounds: &Bounds) -> usize {
    bounds.turns() as usize
}

/// The lines while they are made.
#[derive(Drop)]
struct Folding<'t> {
    alloc: Global,
    rows: &'t [Row],
    // Items that are always shown.
    kept: &'t [usize],
    // No item behind this one is shown.
    last: usize,
    lines: Vec<Line>,
    shown: usize,
    // So many items are shown, and a third of them in folds.
    most: usize,
    // How many items are shown in folds, and how many folds are open.
    folded: usize,
    depth: usize,
    // How many items are left out since the last line.
    left: usize,
}

impl Folding<'_> {
    fn is_kept(&self, first: usize, items: usize) -> bool {
        self.kept
            .iter()
            .any(|kept| first <= *kept && *kept - first < items)
    }

    // Whether two items show the same.
    fn is_same(&self, earlier: usize, later: usize) -> bool {
        match (self.rows.get(earlier), self.rows.get(later)) {
            (Some(earlier), Some(later)) => {
                earlier.state == later.state && earlier.deeds == later.deeds
            }
            _ => false,
        }
    }

    // Whether a turn shows what the one before it shows.
    fn repeats(&self, loop_: &Loop, turn: usize) -> bool {
        let (earlier, later) = (loop_.item(turn.saturating_sub(1)), loop_.item(turn));
        if self.is_kept(earlier, loop_.items) || self.is_kept(later, loop_.items) {
            return false;
        }
        for at in 0..loop_.items {
            if !self.is_same(earlier.saturating_add(at), later.saturating_add(at)) {
                return false;
            }
        }
        true
    }

    // The turns of a loop, those that show the same together.
    fn groups(&self, loop_: &Loop) -> Result<Vec<Group>, AllocError> {
        let mut groups: Vec<Group> = Vec::new(self.alloc);
        'turns: for turn in 0..loop_.turns {
            if turn > 0 && self.repeats(loop_, turn) {
                if let Some(last) = groups.last_mut() {
                    last.more = last.more.saturating_add(1);
                }
            } else {
                groups.push(Group { turn, more: 0 })?;
            }
        }
        Ok(groups)
    }

    fn leave_out(&mut self, items: usize) {
        self.left = self.left.saturating_add(items);
    }

    // Says how many items were left out.
    fn tell_left(&mut self) -> Result<(), AllocError> {
        if self.left > 0 {
            self.lines.push(Line::Left(self.left))?;
            self.left = 0;
        }
        Ok(())
    }

    fn add(&mut self, line: Line) -> Result<(), AllocError> {
        self.tell_left()?;
        self.lines.push(line)?;
        Ok(())
    }

    fn add_item(&mut self, item: usize) -> Result<(), AllocError> {
        if item > self.last {
            return Ok(());
        }
        if self.shown >= self.most && !self.is_kept(item, 1) {
            self.leave_out(1);
            return Ok(());
        }
        self.shown = self.shown.saturating_add(1);
        if self.depth > 0 {
            self.folded = self.folded.saturating_add(1);
        }
        self.add(Line::Item(item))
    }

    // Adds the lines of a part that begins with an item.
    #[cycle(folding)]
    fn add_part(&mut self, part: &Part, item: usize, level: usize) -> Result<(), AllocError> {
        match part {
            Part::Host(_) | Part::Target(_, _) | Part::Alone(_, _) => self.add_item(item),
            Part::Block(all) => self.add_all(all, item, level),
            Part::Loop(bounds, body) => self.add_loop(*bounds, body, item, level),
            Part::Data(_, body) => {
                self.add_item(item)?;
                self.add_all(body, item.saturating_add(1), level)?;
                let end = item.saturating_add(count_all(body)).saturating_add(1);
                self.add_item(end)
            }
        }
    }

    #[cycle(folding)]
    fn add_all(&mut self, parts: &[Part], item: usize, level: usize) -> Result<(), AllocError> {
        let mut next = item;
        'parts: for part in parts {
            self.add_part(part, next, level)?;
            next = next.saturating_add(count(part));
        }
        Ok(())
    }

    // A turn, and that the ones behind it show the same.
    #[cycle(folding)]
    fn add_group(&mut self, body: &[Part], around: &Loop, group: Group) -> Result<(), AllocError> {
        self.add_all(
            body,
            around.item(group.turn),
            around.level.saturating_add(1),
        )?;
        if group.more > 0 {
            let turns = around.turns(group.turn.saturating_add(1), group.more);
            self.add(Line::Same(turns))?;
        }
        Ok(())
    }

    // Whether a group of turns is shown outside a fold.
    fn is_open(&self, around: &Loop, groups: usize, at: usize, group: Group) -> bool {
        let items = around.turns(group.turn, group.more.saturating_add(1)).items;
        at < FIRST_TURNS
            || at.saturating_add(1) >= groups
            || groups <= FIRST_TURNS.saturating_add(2)
            || self.is_kept(around.item(group.turn), items)
    }

    // How many groups in a row are folded.
    fn folded_from(&self, around: &Loop, groups: &[Group], at: usize) -> usize {
        for next in at..groups.len() {
            if self.is_open(around, groups.len(), next, groups[next]) {
                return next - at;
            }
        }
        groups.len().saturating_sub(at)
    }

    // The turns of so many groups in a row.
    fn turns_of_groups(&self, around: &Loop, groups: &[Group], at: usize, count: usize) -> Turns {
        let mut turns = 0usize;
        'groups: for group in groups.iter().skip(at).take(count) {
            turns = turns.saturating_add(group.more).saturating_add(1);
        }
        let first = match groups.get(at) {
            None => 0,
            Some(group) => group.turn,
        };
        around.turns(first, turns)
    }

    // A group within a fold, where there is room for it.
    #[cycle(folding)]
    fn add_folded(&mut self, body: &[Part], around: &Loop, group: Group) -> Result<(), AllocError> {
        if self.folded < self.most / 3 {
            return self.add_group(body, around, group);
        }
        self.leave_out(around.turns(group.turn, group.more.saturating_add(1)).items);
        Ok(())
    }

    fn open(&mut self, turns: Turns) -> Result<(), AllocError> {
        self.add(Line::Open(turns))?;
        self.depth = self.depth.saturating_add(1);
        Ok(())
    }

    fn close(&mut self) -> Result<(), AllocError> {
        self.add(Line::Close)?;
        self.depth = self.depth.saturating_sub(1);
        Ok(())
    }

    // The turns of a loop.
    #[cycle(folding)]
    fn add_turns(&mut self, body: &[Part], around: &Loop) -> Result<(), AllocError> {
        let groups = self.groups(around)?;
        let mut is_folded = false;
        'groups: for (at, group) in groups.iter().enumerate() {
            if self.is_open(around, groups.len(), at, *group) {
                if is_folded {
                    self.close()?;
                    is_folded = false;
                }
                self.add_group(body, around, *group)?;
            } else {
                if !is_folded {
                    let count = self.folded_from(around, &groups, at);
                    self.open(self.turns_of_groups(around, &groups, at, count))?;
                    is_folded = true;
                }
                self.add_folded(body, around, *group)?;
            }
        }
        if is_folded {
            self.close()?;
        }
        Ok(())
    }

    #[cycle(folding)]
    fn add_loop(
        &mut self,
        bounds: Bounds,
        body: &[Part],
        item: usize,
        level: usize,
    ) -> Result<(), AllocError> {
        let items = count_all(body);
        if items == 0 || item > self.last {
            return Ok(());
        }
        let reached = (self.last - item) / items;
        let around = Loop {
            first: item,
            items,
            turns: turns_of(&bounds).min(reached.saturating_add(1)),
            level,
        };
        self.add_turns(body, &around)
    }
}

/// The last item that may be shown: the one that is refused by itself, or the last one that is to be kept, if that is
/// later.
pub fn last_shown(timeline: &Timeline, kept: &[usize]) -> usize {
    let Some(refusal) = timeline.fault else {
        return timeline.rows.len();
    };
    let mut last = refusal.item as usize;
    'kept: for item in kept {
        last = last.max(*item);
    }
    last
}

/// The lines of a table. Turns of a loop that show the same are told in one line; of the others the first ones are
/// shown, the last one, and those that have one of the items to be kept; those between are folded. Where there are
/// too many items for so many columns, some are left out. The items behind the last that may be shown are not.
pub fn lines_of(
    alloc: Global,
    outlined: &Outlined<'_>,
    timeline: &Timeline,
    kept: &[usize],
    columns: usize,
) -> Result<Vec<Line>, AllocError> {
    let last = last_shown(timeline, kept);
    let mut folding = Folding {
        alloc,
        rows: &timeline.rows,
        kept,
        last,
        lines: Vec::new(alloc),
        shown: 0,
        most: (MOST_FIELDS / columns.max(1)).clamp(LEAST_SHOWN, MOST_SHOWN),
        folded: 0,
        depth: 0,
        left: 0,
    };
    folding.add_all(&outlined.program().body, 0, 0)?;
    folding.tell_left()?;
    let Folding { lines, .. } = folding;
    Ok(lines)
}
