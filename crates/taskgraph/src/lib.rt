//! The order in which tasks may run: what each item waits for, how far it is, and where the host stands.
#![tactic(auto)]

ghost use Rattle.std.specs.Prelude.{◌≡◌, ◌+◌, ◌<◌, ◌≤◌, ◌&&◌, not, true, ℕ, IfOk, length, map, slice_index};
ghost use Rattle.base.specs.Machine.{is_closed, is_empty, is_predecessor, is_waiting};
ghost use Rattle.taskgraph.specs.Board.{condition_of, item_facts, task_facts, untouched, work_of};
ghost use Rattle.taskgraph.specs.Laws.{AllowedIsEnabled};
ghost use Rattle.taskgraph.specs.Waiting.{AreCounts, AreEnds, AreFree, AreStarts, AreUntouched, AreClosed, IsExtended, IsFirst, IsStart, begins, board_of, counted_in, held_by, is_bare, is_free, one_if, plan_for};

use crate::cover::covers;
use crate::marks::Marks;
use base::depend::match_some;
use base::item::{Depend, Item, ItemKind};
use std::alloc::{AllocError, Global};
use std::marker::Model;

mod cover;
mod marks;

/// How far an item is.
#[derive(Clone, Copy)]
pub enum Stage {
    Untouched,
    Generated,
    Open,
    Closed,
    /// A wait that the host has passed.
    Passed,
}

/// An item, as far as the order asks.
#[derive(Drop)]
pub struct Task {
    kind: ItemKind,
    deferred: bool,
    depends: Vec<Depend>,
}

/// The items of a program, how far each is, and where the host stands. An item's predecessors are the earlier deferred
/// items with a matching `depend` clause, and for a `taskwait` without one all earlier deferred items (OpenMP API 5.2,
/// sections 15.5 and 15.9.5).
///
/// Whether an item is ready is known at once, from a count that each closing of a deferred item takes down. The count
/// leaves out a predecessor for which a later one stands, since that is opened when the former is closed: one whose
/// depend items have all cells of the item's own, and write where they do. Nor does it go back past a `taskwait` without
/// a clause, and such a `taskwait` is ready where no deferred item before it is left. So `new` looks at each item and at
/// those before it, back to one that stands for all earlier ones, or to the first: at one in a chain of tasks on the same
/// cells, and at all pairs of items where no two match. A deferred item's closing looks at the later items up to the last
/// one in whose count it is.
#[derive(Drop)]
pub struct Graph {
    tasks: Vec<Task>,
    stages: Vec<Stage>,
    /// The predecessors of each task that are counted lie from this item on.
    starts: Vec<usize>,
    /// The tasks in whose counts each task is lie before this item.
    ends: Vec<usize>,
    /// How many counted predecessors of each task are not closed.
    missing: Vec<usize>,
    /// The lowest item that is deferred and not closed, or `place` where none is before it.
    first: usize,
    /// The items that are open.
    open_items: Marks,
    /// The deferred items that may be opened.
    ready_items: Marks,
    place: usize,
}

impl Model for Graph {
    ghost use Rattle.std.specs.Prelude.{map};
    ghost use Rattle.taskgraph.specs.Board.{Board, task_facts};
    ghost use Rattle.taskgraph.specs.Waiting.{IsGraphWith};

    ghost Value = { Board };

    ghost view = { λ g. record { tasks = map task_facts g.tasks.items; stages = g.stages.items; place = g.place } };

    ghost invariant = { λ g. IsGraphWith (record { tasks = map task_facts g.tasks.items; stages = g.stages.items; place = g.place }) g.starts.items g.ends.items g.missing.items g.first g.open_items g.ready_items };
}

fn is_wait(task: &Task) -> bool
    ensures { result ≡ Rattle.base.specs.Machine.is_wait task.now.kind }
{
    matches!(task.kind, ItemKind::Wait)
}

/// Whether an item is a `taskwait` without a clause.
fn is_bare(task: &Task) -> bool
    ensures { result ≡ is_bare (work_of (task_facts task.now)) }
{
    is_wait(task) && task.depends.is_empty()
}

/// Whether the host passes it only where all deferred items before it are closed.
fn is_barrier(task: &Task) -> bool
    ensures { result ≡ (is_bare (work_of (task_facts task.now)) && not task.now.deferred) }
{
    is_bare(task) && !task.deferred
}

/// Whether it has no depend items.
fn is_without(task: &Task) -> bool
    ensures { result ≡ is_empty (work_of (task_facts task.now)).depends }
{
    task.depends.is_empty()
}

/// Whether the earlier of two items is a predecessor of the later.
fn is_predecessor(earlier: &Task, later: &Task) -> bool
    ensures { result ≡ is_predecessor (work_of (task_facts earlier.now)) (work_of (task_facts later.now)) }
{
    if !earlier.deferred {
        return false;
    }
    if is_bare(later) {
        return true;
    }
    match_some(&earlier.depends, &later.depends)
}

/// Of each graph: it allows an event where the machine with two memories enables it.
#[tactic(auto, using(crate::proofs::Laws::allowed_is_enabled))]
pub fn allowed_is_enabled()
    ensures { AllowedIsEnabled }
{}

/// The items as tasks.
fn tasks_of(alloc: Global, items: &[Item]) -> Result<Vec<Task>, AllocError>
    ensures { IfOk result (λ ts. map task_facts ts.items ≡ map item_facts items.now) }
{
    let mut tasks = Vec::with_capacity(alloc, items.len())?;
    'items: for item in items {
        tasks.push(Task {
            kind: item.kind,
            deferred: item.deferred,
            depends: Vec::from_slice(alloc, &item.depends)?,
        })?;
    }
    Ok(tasks)
}

/// From where on an item's predecessors are counted: each one before is a predecessor of one that is counted, or lies
/// before a `taskwait` without a clause.
fn start_of(tasks: &[Task], item: usize) -> usize
    requires { item < length tasks.now }
    ensures { IsStart (plan_for tasks.now) item result }
{
    let later = &tasks[item];
    if is_without(later) {
        return item;
    }
    let mut start = item;
    let mut earlier = item;
    'earlier: while earlier > 0 {
        earlier -= 1;
        let task = &tasks[earlier];
        if is_barrier(task) {
            return start;
        }
        if is_predecessor(task, later) {
            start = earlier;
            if covers(&task.depends, &later.depends) {
                return start;
            }
        }
    }
    start
}

/// How many predecessors of an item are counted.
#[tactic(auto, using(crate::proofs::Pairs::none_yet))]
fn predecessors(tasks: &[Task], start: usize, item: usize) -> usize
    requires inside { item < length tasks.now }
    requires start { start ≤ item }
    ensures { result ≡ held_by (untouched (map task_facts tasks.now)) start item item }
{
    let mut count = 0;
    'earlier: for earlier in start..item {
        if is_predecessor(&tasks[earlier], &tasks[item]) {
            count += 1;
        }
    }
    count
}

/// As many stages of items that have not begun.
fn stages_of(alloc: Global, count: usize) -> Result<Vec<Stage>, AllocError>
    ensures { IfOk result (λ v. AreUntouched count v.items) }
{
    let stages = vec![in alloc; Stage::Untouched; count]?;
    Ok(stages)
}

/// From where on each item's predecessors are counted.
fn starts_of(alloc: Global, tasks: &[Task]) -> Result<Vec<usize>, AllocError>
    ensures { IfOk result (λ v. AreStarts (plan_for tasks.now) v.items) }
{
    let mut starts = Vec::with_capacity(alloc, tasks.len())?;
    'items: for item in 0..tasks.len() {
        starts.push(start_of(tasks, item))?;
    }
    Ok(starts)
}

/// How many predecessors of each item are counted.
fn counts_of(alloc: Global, tasks: &[Task], starts: &[usize]) -> Result<Vec<usize>, AllocError>
    requires { AreStarts (plan_for tasks.now) starts.now }
    ensures { IfOk result (λ v. AreCounts tasks.now starts.now v.items) }
{
    let mut counts = Vec::with_capacity(alloc, tasks.len())?;
    'items: for item in 0..tasks.len() {
        counts.push(predecessors(tasks, starts[item], item))?;
    }
    Ok(counts)
}

/// Notes that the predecessors of an item that are counted are in its count.
fn extend(tasks: &[Task], start: usize, item: usize, ends: &mut [usize])
    requires inside { item < length tasks.now }
    requires same { length ends.old ≡ length tasks.now }
    ensures { IsExtended (plan_for tasks.now) start item ends.old ends.new }
{
    'earlier: for earlier in start..item {
        if is_predecessor(&tasks[earlier], &tasks[item]) {
            ends[earlier] = item + 1;
        }
    }
}

/// For each item, before which one the items lie in whose counts it is.
fn ends_of(alloc: Global, tasks: &[Task], starts: &[usize]) -> Result<Vec<usize>, AllocError>
    requires { AreStarts (plan_for tasks.now) starts.now }
    ensures { IfOk result (λ v. AreEnds (plan_for tasks.now) starts.now v.items) }
{
    let mut ends = vec![in alloc; 0; tasks.len()]?;
    'items: for item in 0..tasks.len() {
        extend(tasks, starts[item], item, &mut ends);
    }
    Ok(ends)
}

/// Whether an item is in the count of a later one.
fn is_counted(tasks: &[Task], starts: &[usize], item: usize, later: usize) -> bool
    requires before { item < later }
    requires inside { later < length tasks.now }
    requires starts { length starts.now ≡ length tasks.now }
    ensures { result ≡ counted_in tasks.now starts.now item later }
{
    starts[later] <= item && is_predecessor(&tasks[item], &tasks[later])
}

/// One where it holds, and else none.
fn one_if(holds: bool) -> usize
    ensures { result ≡ one_if holds }
{
    if holds { 1 } else { 0 }
}

/// Whether an item at that stage with so many predecessors left is deferred and may be opened.
fn is_freed(task: &Task, stage: Stage, missing: usize) -> bool
    ensures { result ≡ is_free (task_facts task.now) stage missing }
{
    task.deferred && !is_wait(task) && stage == Stage::Generated && missing == 0
}

/// Takes the item from the counts of later ones, which lie before `end`, and marks those that are ready now.
fn release(
    tasks: &[Task],
    starts: &[usize],
    stages: &[Stage],
    missing: &mut [usize],
    ready: &mut Marks,
    item: usize,
    end: usize,
)
    requires inside { item < length tasks.now }
    requires end { end ≤ length tasks.now }
    requires starts { length starts.now ≡ length tasks.now }
    requires stages { length stages.now ≡ length tasks.now }
    requires same { length missing.old ≡ length tasks.now }
    requires past { (j : ℕ) → j < length tasks.now → counted_in tasks.now starts.now item j ≡ true → j < end }
    requires counted { (j : ℕ) → j < length tasks.now → one_if (counted_in tasks.now starts.now item j) ≤ slice_index missing.old j }
    requires ready { AreFree (map task_facts tasks.now) stages.now missing.old ready.old }
    ensures same { length missing.new ≡ length tasks.now }
    ensures taken { (j : ℕ) → j < length tasks.now → slice_index missing.new j + one_if (counted_in tasks.now starts.now item j) ≡ slice_index missing.old j }
    ensures ready { AreFree (map task_facts tasks.now) stages.now missing.new ready.new }
{
    'later: for later in item + 1..end {
        if is_counted(tasks, starts, item, later) {
            missing[later] -= 1;
            let freed = is_freed(&tasks[later], stages[later], missing[later]);
            ready.insert_if(later, freed);
        }
    }
}

/// Whether an item is deferred and not closed.
fn is_left(task: &Task, stage: Stage) -> bool
    ensures { result ≡ (task.now.deferred && not (is_closed (condition_of stage))) }
{
    task.deferred && !matches!(stage, Stage::Closed)
}

/// The lowest item, from one on below which there is none, that is deferred and not closed; the place where none is
/// before it.
fn first_left(tasks: &[Task], stages: &[Stage], from: usize, place: usize) -> usize
    requires inside { place ≤ length tasks.now }
    requires same { length stages.now ≡ length tasks.now }
    requires from { from ≤ place }
    requires below { AreClosed (board_of tasks.now stages.now place) from }
    ensures { IsFirst (board_of tasks.now stages.now place) result }
{
    'left: for item in from..place {
        if is_left(&tasks[item], stages[item]) {
            return item;
        }
    }
    place
}

/// Whether an item at that stage may begin, where its predecessors are closed and the host stands at it or not.
fn may_begin(task: &Task, stage: Stage, here: bool) -> bool
    ensures { result ≡ begins (task_facts task.now) stage here }
{
    if is_wait(task) {
        return here;
    }
    if task.deferred {
        return stage == Stage::Generated;
    }
    here && stage == Stage::Untouched
}

impl Graph {
    ghost use Rattle.std.specs.Prelude.{◌≡◌, ◌<◌, ◌≤◌, ℕ, ◌||◌, IfOk, IfNone, IfSome, length, slice_get, true, false};
    ghost use Rattle.base.specs.declared.item.Event.TheVariants.{Gen, Open, Close, Wait, End};
    ghost use Rattle.base.specs.Machine.{is_closed, is_open, is_wait, on_item};
    ghost use Rattle.taskgraph.specs.Board.{HasNoTask, IsNew, IsNextTask, IsSettled, Follows, all_closings, all_openings, allows, plan_in, state_in};

    /// The graph of these items, none of which has begun.
    pub fn new(alloc: Global, items: &[Item]) -> Result<Graph, AllocError>
        ensures { IfOk result (λ g. IsNew items.now g) }
    {
        let tasks = tasks_of(alloc, items)?;
        let stages = stages_of(alloc, tasks.len())?;
        let starts = starts_of(alloc, &tasks)?;
        let ends = ends_of(alloc, &tasks, &starts)?;
        let missing = counts_of(alloc, &tasks, &starts)?;
        let open_items = Marks::new(alloc, tasks.len())?;
        let ready_items = Marks::new(alloc, tasks.len())?;
        Ok(Graph {
            tasks,
            stages,
            starts,
            ends,
            missing,
            first: 0,
            open_items,
            ready_items,
            place: 0,
        })
    }

    /// Where the host stands: at an item, or past the last at their number.
    pub fn place(&self) -> usize
        ensures { result ≡ self.now.place }
    {
        self.place
    }

    /// Whether the item is open, and so may be closed; a number past the last gives `false`.
    #[tactic(auto, using(crate::proofs::Parts::open_past, crate::proofs::Parts::close_past))]
    pub fn is_open(&self, item: usize) -> bool
        ensures open { result ≡ is_open ((state_in self.now).condition item) }
        ensures close { result ≡ allows self.now (Close item) }
    {
        if item >= self.tasks.len() {
            return false;
        }
        matches!(self.stages[item], Stage::Open)
    }

    /// Whether the item is closed; a number past the last gives `false`.
    #[tactic(auto, using(crate::proofs::Parts::closed_past))]
    pub fn is_closed(&self, item: usize) -> bool
        ensures { result ≡ is_closed ((state_in self.now).condition item) }
    {
        if item >= self.tasks.len() {
            return false;
        }
        matches!(self.stages[item], Stage::Closed)
    }

    /// Whether the item may be opened next, or passed by the host where it is a wait: it was not before, all its
    /// predecessors are closed, and it is generated (a deferred item) or the host stands at it. This takes a few steps,
    /// however many items there are. A number past the last gives `false`.
    #[tactic(auto, using(crate::proofs::Ready::past, crate::proofs::Ready::held))]
    pub fn ready(&self, item: usize) -> bool
        ensures { result ≡ (allows self.now (Open item) || allows self.now (Wait item)) }
    {
        if item >= self.tasks.len() {
            return false;
        }
        if self.missing[item] > 0 {
            return false;
        }
        let task = &self.tasks[item];
        if is_bare(task) {
            return self.place == item && self.first == item;
        }
        may_begin(task, self.stages[item], self.place == item)
    }

    #[tactic(auto, using(crate::proofs::Parts::asked_past))]
    fn is_deferred(&self, item: usize) -> bool
        ensures { result ≡ on_item (plan_in self.now) item false (λ w. w.deferred) }
    {
        if item >= self.tasks.len() {
            return false;
        }
        self.tasks[item].deferred
    }

    #[tactic(auto, using(crate::proofs::Parts::asked_past))]
    fn is_wait(&self, item: usize) -> bool
        ensures { result ≡ on_item (plan_in self.now) item false (λ w. is_wait w.kind) }
    {
        if item >= self.tasks.len() {
            return false;
        }
        is_wait(&self.tasks[item])
    }

    /// Whether the host may generate the item next: it stands at it, and the item is deferred.
    pub fn may_generate(&self, item: usize) -> bool
        ensures { result ≡ allows self.now (Gen item) }
    {
        self.place == item && self.is_deferred(item)
    }

    /// Whether the item may be opened next: it is ready and no wait.
    #[tactic(auto, using(crate::proofs::Parts::open_part))]
    pub fn may_open(&self, item: usize) -> bool
        ensures { result ≡ allows self.now (Open item) }
    {
        self.ready(item) && !self.is_wait(item)
    }

    /// Whether the host may pass the item next: it is a wait and ready.
    #[tactic(auto, using(crate::proofs::Parts::wait_part))]
    pub fn may_pass(&self, item: usize) -> bool
        ensures { result ≡ allows self.now (Wait item) }
    {
        self.ready(item) && self.is_wait(item)
    }

    /// The host generates the item at which it stands, and moves on.
    pub fn generate(&mut self, item: usize)
        requires { allows self.old (Gen item) ≡ true }
        ensures { Follows self.old (Gen item) self.new }
    {
        self.stages[item] = Stage::Generated;
        self.place += 1;
        let freed = is_freed(&self.tasks[item], Stage::Generated, self.missing[item]);
        self.ready_items.insert_if(item, freed);
    }

    /// The item is opened.
    pub fn opened(&mut self, item: usize)
        requires { allows self.old (Open item) ≡ true }
        ensures { Follows self.old (Open item) self.new }
    {
        self.stages[item] = Stage::Open;
        self.open_items.insert(item);
        let deferred = self.tasks[item].deferred;
        self.ready_items.remove_if(item, deferred);
    }

    /// The open item is closed; the host moves on where the item is not deferred.
    pub fn closed(&mut self, item: usize)
        requires { allows self.old (Close item) ≡ true }
        ensures { Follows self.old (Close item) self.new }
    {
        self.stages[item] = Stage::Closed;
        self.open_items.remove(item);
        if self.tasks[item].deferred {
            let end = self.ends[item];
            release(
                &self.tasks,
                &self.starts,
                &self.stages,
                &mut self.missing,
                &mut self.ready_items,
                item,
                end,
            );
            self.first = first_left(&self.tasks, &self.stages, self.first, self.place);
            return;
        }
        self.place += 1;
        self.first = first_left(&self.tasks, &self.stages, self.first, self.place);
    }

    /// The host passes the wait at which it stands.
    pub fn waited(&mut self, item: usize)
        requires { allows self.old (Wait item) ≡ true }
        ensures { Follows self.old (Wait item) self.new }
    {
        self.stages[item] = Stage::Passed;
        self.place += 1;
        self.first = first_left(&self.tasks, &self.stages, self.first, self.place);
    }

    /// Whether the run may end: the host is past the last item, and all deferred items are closed.
    pub fn may_end(&self) -> bool
        ensures { result ≡ allows self.now End }
    {
        self.first == self.tasks.len()
    }

    /// An item below which none may be opened or closed; nor may one be above the host's place.
    pub fn first(&self) -> usize
        ensures below { (i : ℕ) → i < result → IsSettled self.now i }
        ensures above { (i : ℕ) → self.now.place < i → IsSettled self.now i }
        ensures inside { result ≤ self.now.place }
        ensures within { result ≤ length self.now.tasks }
    {
        self.first
    }

    /// The lowest deferred item, from one on, that may be opened next.
    pub fn next_task(&self, from: usize) -> Option<usize>
        ensures next { IfSome result (IsNextTask (plan_in self.now) (state_in self.now) from) }
        ensures none { IfNone result (HasNoTask (plan_in self.now) (state_in self.now) from) }
    {
        // none lies below the first
        self.ready_items.next(from.max(self.first))
    }

    /// How many items may be closed next.
    pub fn closing_count(&self) -> usize
        ensures { result ≡ length (all_closings self.now) }
    {
        self.open_items.len()
    }

    /// Of the items that may be closed next, ascending, the one at a place.
    pub fn closing_at(&self, place: usize) -> Option<usize>
        ensures { result ≡ slice_get (all_closings self.now) place }
    {
        self.open_items.nth(place)
    }

    /// How many items may be opened next.
    pub fn opening_count(&self) -> usize
        ensures { result ≡ length (all_openings self.now) }
    {
        self.ready_items.len() + one_if(self.may_open(self.place))
    }

    /// Of the items that may be opened next, ascending, the one at a place. The deferred ones lie below the host's place.
    pub fn opening_at(&self, place: usize) -> Option<usize>
        ensures { result ≡ slice_get (all_openings self.now) place }
    {
        if place == self.ready_items.len() && self.may_open(self.place) {
            return Some(self.place);
        }
        self.ready_items.nth(place)
    }
}
