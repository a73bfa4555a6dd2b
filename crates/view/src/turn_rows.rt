// The turns of kernels that may run in any order, one at a time.

use crate::chips::add_section;
use crate::faults::MEETING;
use crate::kernel_turns::{Kernel, KernelTurn};
use crate::page::Page;
use crate::rows::{Shown, add_marker};
use crate::scene::{Scene, is_of};
use base::item::Item;
use base::tree::ArrayId;
use ranges::Run;
use reasons::Note;
use std::alloc::{AllocError, Global};
use timeline::Span;

// The turns of so many kernels are shown at most, besides those of kernels that are refused.
const MOST_KERNELS: usize = 24;

// More runs of cells of an array are shown as one of many pieces.
const MOST_RUNS: usize = 64;

// So many runs of an array are told in words.
const MOST_WORDS: usize = 3;

// The values of the loops in a turn.
fn add_values(page: &mut Page, kernel: &Kernel, turn: &KernelTurn) -> Result<(), AllocError> {
    'loops: for (level, value) in turn.values.iter().enumerate() {
        page.add(if level > 0 { ", " } else { "" })?;
        match kernel.names.get(level) {
            None => page.add("a loop")?,
            Some(name) => page.add_text(name)?,
        }
        page.add(" = ")?;
        page.add_number(*value)?;
    }
    Ok(())
}

// The runs of an array.
fn runs_in(alloc: Global, array: ArrayId, runs: &[Run]) -> Result<Vec<Span>, AllocError> {
    let mut spans = Vec::new(alloc);
    'runs: for run in runs {
        if run.array == array {
            spans.push(Span {
                first: run.first,
                end: run.first.saturating_add(run.length),
            })?;
        }
    }
    Ok(spans)
}

// Cells that lie together.
fn add_piece(
    page: &mut Page,
    class: &'static str,
    span: Span,
    length: u64,
) -> Result<(), AllocError> {
    page.add("<s class=")?;
    page.add(class)?;
    page.add(" style=\"left:")?;
    page.add_percent(span.first, length)?;
    page.add(";width:")?;
    page.add_percent(span.end.saturating_sub(span.first), length)?;
    page.add("\"></s>")
}

fn add_pieces(
    page: &mut Page,
    class: &'static str,
    spans: &[Span],
    length: u64,
) -> Result<(), AllocError> {
    if let ([first, ..], [.., last]) = (spans, spans) {
        if spans.len() > MOST_RUNS {
            let all = Span {
                first: first.first,
                end: last.end,
            };
            return add_piece(page, "z", all, length);
        }
    }
    'spans: for span in spans {
        add_piece(page, class, *span, length)?;
    }
    Ok(())
}

fn add_words(page: &mut Page, sign: &'static str, spans: &[Span]) -> Result<(), AllocError> {
    'spans: for (at, span) in spans.iter().enumerate() {
        page.add("<span class=k>")?;
        page.add(sign)?;
        if at >= MOST_WORDS {
            return page.add("..</span> ");
        }
        add_section(page, *span)?;
        page.add("</span> ")?;
    }
    Ok(())
}

/// Where the cells of an array are shown on a side.
#[derive(Clone, Copy)]
struct Field {
    array: ArrayId,
    column: usize,
    side: usize,
}

// What a turn touches of an array.
fn add_field(
    page: &mut Page,
    scene: &Scene<'_>,
    shown: &Shown<'_>,
    turn: &KernelTurn,
    field: Field,
) -> Result<(), AllocError> {
    let read = runs_in(page.alloc, field.array, &turn.read)?;
    let write = runs_in(page.alloc, field.array, &turn.write)?;
    if read.is_empty() && write.is_empty() {
        return Ok(());
    }
    let length = scene.length_of(field.array);
    page.add("<div class=\"f s")?;
    page.add_number(field.side as u64)?;
    page.add("\" style=\"grid-column:")?;
    page.add_number(field.column as u64)?;
    page.add("\"><i class=b></i>")?;
    add_pieces(page, "q", &read, length)?;
    add_pieces(page, "w", &write, length)?;
    if turn.meets {
        add_meeting(page, scene, shown.number, field.array)?;
    }
    add_words(page, "r", &read)?;
    add_words(page, "w", &write)?;
    page.add("</div>")
}

// The cell on which turns meet.
fn add_meeting(
    page: &mut Page,
    scene: &Scene<'_>,
    number: usize,
    array: ArrayId,
) -> Result<(), AllocError> {
    'told: for diagnosis in &scene.told.diagnoses {
        if let Some(named) = &diagnosis.cell {
            if is_of(diagnosis, number) && named.cell.array == array {
                let length = scene.length_of(array);
                add_marker(page, diagnosis, named.cell.index, length)?;
            }
        }
    }
    Ok(())
}

// The side on which a kernel runs, and its number among those that have columns.
fn side_of(scene: &Scene<'_>, item: &Item) -> (usize, usize) {
    let device = (item.device.number as usize).saturating_add(1);
    'sides: for (at, side) in scene.timeline.sides.iter().enumerate() {
        if *side == device {
            return (device, at);
        }
    }
    (device, 0)
}

// A turn as a row of the table.
fn add_turn(
    page: &mut Page,
    scene: &Scene<'_>,
    shown: &Shown<'_>,
    kernel: &Kernel,
    turn: &KernelTurn,
) -> Result<(), AllocError> {
    page.add("<div class=it>turn <small>")?;
    add_values(page, kernel, turn)?;
    page.add("</small></div>")?;
    let (side, at) = side_of(scene, shown.item);
    let sides = scene.timeline.sides.len();
    'arrays: for (number, array) in scene.arrays.iter().enumerate() {
        let before = number.saturating_mul(sides).saturating_add(at);
        let field = Field {
            array: *array,
            column: before.saturating_add(2),
            side,
        };
        add_field(page, scene, shown, turn, field)?;
    }
    page.add("</div>\n")
}

// The number of the first turn that meets no other, which has no row of its own; of the first where all do.
fn first_apart(turns: &[KernelTurn]) -> usize {
    'turns: for (number, turn) in turns.iter().enumerate() {
        if !turn.meets {
            return number;
        }
    }
    0
}

// What chooses a turn, and its row.
fn add_choice(
    page: &mut Page,
    scene: &Scene<'_>,
    shown: &Shown<'_>,
    kernel: &Kernel,
    number: usize,
    first: usize,
) -> Result<(), AllocError> {
    let Some(turn) = kernel.turns.get(number) else {
        return Ok(());
    };
    page.add("<input type=radio name=t")?;
    page.add_number(shown.number as u64)?;
    page.add(if turn.meets { " class=v" } else { "" })?;
    page.add(if number == first { " checked" } else { "" })?;
    page.add(" title=\"")?;
    add_values(page, kernel, turn)?;
    page.add("\"><div class=\"r tp\">")?;
    add_turn(page, scene, shown, kernel, turn)
}

// The turns of a kernel: those that meet, and one at a time of those that are shown.
fn add_kernel(
    page: &mut Page,
    scene: &Scene<'_>,
    shown: &Shown<'_>,
    kernel: &Kernel,
) -> Result<(), AllocError> {
    'turns: for turn in &kernel.turns {
        if turn.meets {
            page.add("<div class=\"r bad\">")?;
            add_turn(page, scene, shown, kernel, turn)?;
        }
    }
    page.add("<div class=tn><p class=m>turns in any order, one at a time: ")?;
    page.add_number(kernel.turns.len() as u64)?;
    page.add(" of ")?;
    page.add_number(kernel.count)?;
    page.add("; pale is read, full written</p>\n")?;
    let first = first_apart(&kernel.turns);
    'choices: for number in 0..kernel.turns.len() {
        add_choice(page, scene, shown, kernel, number, first)?;
    }
    page.add("</div>\n")
}

/// The kernels whose turns are shown so far, by the numbers of their regions.
#[derive(Drop)]
pub struct Kernels {
    regions: Vec<u32>,
}

// What is told of the two turns that meet, where an item is refused for them.
fn notes_of<'a>(scene: &Scene<'a>, number: usize) -> &'a [Note] {
    'told: for diagnosis in &scene.told.diagnoses {
        if is_of(diagnosis, number) && diagnosis.code == MEETING {
            return &diagnosis.notes;
        }
    }
    &[]
}

impl Kernels {
    pub fn new(alloc: Global) -> Kernels {
        Kernels {
            regions: Vec::new(alloc),
        }
    }

    // Whether the turns of a kernel are shown, of which none were so far.
    fn is_new(&mut self, region: u32) -> Result<bool, AllocError> {
        if self.regions.len() >= MOST_KERNELS || self.regions.contains(&region) {
            return Ok(false);
        }
        self.regions.push(region)?;
        Ok(true)
    }

    /// Adds the turns of an item's kernel, where they may run in any order: at its first item that is shown, and where
    /// two of them meet.
    pub fn add(
        &mut self,
        page: &mut Page,
        scene: &Scene<'_>,
        shown: &Shown<'_>,
    ) -> Result<(), AllocError> {
        let Some(region) = shown.item.region else {
            return Ok(());
        };
        let notes = notes_of(scene, shown.number);
        if notes.is_empty() && !self.is_new(region)? {
            return Ok(());
        }
        match scene.kernel(page.alloc, shown.item, notes)? {
            None => Ok(()),
            Some(kernel) if kernel.turns.is_empty() => Ok(()),
            Some(kernel) => add_kernel(page, scene, shown, &kernel),
        }
    }
}
