// Counters to which items add in any order that their waits allow.
#![tactic(auto)]

ghost use Rattle.std.specs.Prelude.{◌≡◌, ◌↔◌, ◌+◌, ℕ, ◌<◌, ◌≤◌, IfSome, IsTrue, length, slice_get, true, IfOk, IfErr, OnOk, OnErr};
ghost use Rattle.counters.specs.Steps.{IsEnabled, IsNew, HasTotals, move_of, parts};
ghost use Rattle.machine.specs.Machine.{Runs, StopsAtFault, first_moves};
ghost use Rattle.std.specs.List.{slice_index_or};
ghost use Rattle.counters.specs.Tally.{needs, NeededClosed, IsProgram, item};

use machine::{Machine, play};
use std::alloc::{AllocError, Global};
use std::marker::Model;

/// An item: a wait, or one that adds to a counter.
#[derive(Clone, Copy)]
pub struct Item {
    pub deferred: bool,
    pub wait: bool,
    pub counter: usize,
    pub amount: u64,
}

/// How far an item is.
#[derive(Clone, Copy)]
pub enum Progress {
    Untouched,
    Generated,
    Opened,
    Closed,
}

/// One event.
#[derive(Clone, Copy)]
pub enum Event {
    Gen(usize),
    Open(usize),
    Close(usize),
    Wait(usize),
}

/// Why an item was not closed.
#[derive(Clone, Copy, Debug)]
pub enum Fault {
    /// The sum passes the largest number.
    Full,
}

/// The counters, in the middle of a run.
#[derive(Drop)]
pub struct Counters {
    items: Vec<Item>,
    counters: Vec<u64>,
    progress: Vec<Progress>,
    seen: Vec<u64>,
    place: usize,
}

impl Model for Counters {
    ghost use Rattle.counters.specs.Tally.{Tally, IsTally};

    ghost Value = { Tally };

    ghost view = { λ a. record { items = a.items.items; counters = a.counters.items; progress = a.progress.items; seen = a.seen.items; place = a.place } };

    ghost invariant = { λ a. IsTally (record { items = a.items.items; counters = a.counters.items; progress = a.progress.items; seen = a.seen.items; place = a.place }) };
}

fn is_needed(items: &[Item], k: usize, i: usize) -> bool
    requires k_in { k < length items.now }
    requires i_in { i < length items.now }
    ensures { result ≡ needs items.now k i }
{
    let (first, second) = (items[k], items[i]);
    k < i && first.deferred && (second.wait || first.counter == second.counter)
}

fn is_closed(progress: Progress) -> bool
    ensures { IsTrue result ↔ (progress ≡ Progress.Closed) }
{
    matches!(progress, Progress::Closed)
}

/// Whether each item that item `i` needs is closed.
fn are_needed_closed(items: &[Item], progress: &[Progress], i: usize) -> bool
    requires i_in { i < length items.now }
    requires same { length progress.now ≡ length items.now }
    ensures { IsTrue result ↔ NeededClosed items.now progress.now i }
{
    for k in 0..i {
        if is_needed(items, k, i) && !is_closed(progress[k]) {
            return false;
        }
    }
    true
}

/// Whether the items are a program over this many counters: no wait is deferred, and the last item is a wait.
pub fn is_program(items: &[Item], counters: usize) -> bool
    ensures { IsTrue result ↔ (IsProgram items.now × ((i : ℕ) → i < length items.now → (item items.now i).counter < counters)) }
{
    for item in items {
        if (item.wait && item.deferred) || item.counter >= counters {
            return false;
        }
    }
    match items.last() {
        Some(last) => last.wait,
        None => true,
    }
}

impl Counters {
    ghost use Rattle.counters.specs.Steps.{IsNew, IsEnabled, IsFull, generated, opened, closed, waited, move_of};
    ghost use Rattle.machine.specs.Board.Move.{Gen, Open, Close, Wait};

    /// A run of these items, with these counters to begin with.
    pub fn new(alloc: Global, items: Vec<Item>, counters: Vec<u64>) -> Result<Counters, AllocError>
        requires program { IsProgram items.items }
        requires in_range { (i : ℕ) → i < length items.items → (item items.items i).counter < length counters.items }
        ensures ok { IfOk result (λ s. IsNew s × (s.items ≡ items.items) × (s.counters ≡ counters.items)) }
    {
        let progress = vec![in alloc; Progress::Untouched; items.len()]?;
        let seen = vec![in alloc; 0; items.len()]?;
        Ok(Counters {
            items,
            counters,
            progress,
            seen,
            place: 0,
        })
    }

    /// The counters as they are now.
    pub fn counters(&self) -> &[u64]
        ensures { result.now ≡ self.now.counters }
    {
        &self.counters
    }

    fn can_wait(&self, i: usize) -> bool
        ensures { IsTrue result ↔ IsEnabled self.now (Wait i) }
    {
        i < self.items.len()
            && self.items[i].wait
            && self.place == i
            && are_needed_closed(&self.items, &self.progress, i)
    }

    fn is_enabled(&self, event: &Event) -> bool
        ensures { IsTrue result ↔ IsEnabled self.now (move_of event.now) }
    {
        match *event {
            Event::Gen(i) => i < self.items.len() && self.items[i].deferred && self.place == i,
            Event::Open(i) => {
                i < self.items.len()
                    && !self.items[i].wait
                    && if self.items[i].deferred {
                        matches!(self.progress[i], Progress::Generated)
                    } else {
                        self.place == i && matches!(self.progress[i], Progress::Untouched)
                    }
                    && are_needed_closed(&self.items, &self.progress, i)
            }
            Event::Close(i) => i < self.items.len() && matches!(self.progress[i], Progress::Opened),
            Event::Wait(i) => self.can_wait(i),
        }
    }

    fn generate(&mut self, i: usize)
        requires { IsEnabled self.old (Gen i) }
        ensures { self.new ≡ generated self.old i }
    {
        self.progress[i] = Progress::Generated;
        self.place = i + 1;
    }

    fn open(&mut self, i: usize)
        requires { IsEnabled self.old (Open i) }
        ensures { self.new ≡ opened self.old i }
    {
        self.seen[i] = self.counters[self.items[i].counter];
        self.progress[i] = Progress::Opened;
    }

    // Closes an item with a sum that was made before.
    fn store(&mut self, i: usize, sum: u64)
        requires enabled { IsEnabled self.old (Close i) }
        requires sum { sum ≡ slice_index_or self.old.seen i 0 + (item self.old.items i).amount }
        ensures { self.new ≡ closed self.old i }
    {
        let Item {
            deferred,
            counter,
            ..
        } = self.items[i];
        self.counters[counter] = sum;
        self.progress[i] = Progress::Closed;
        if !deferred {
            self.place = i + 1;
        }
    }

    fn close(&mut self, i: usize) -> Result<(), Fault>
        requires { IsEnabled self.old (Close i) }
        ensures ok { OnOk result (self.new ≡ closed self.old i) }
        ensures err { OnErr result (self.new ≡ self.old) }
        ensures full { OnErr result (IsFull self.old (Close i)) }
    {
        let Some(sum) = self.seen[i].checked_add(self.items[i].amount) else {
            return Err(Fault::Full);
        };
        self.store(i, sum);
        Ok(())
    }

    fn wait(&mut self, i: usize)
        requires { IsEnabled self.old (Wait i) }
        ensures { self.new ≡ waited self.old i }
    {
        self.progress[i] = Progress::Closed;
        self.place = i + 1;
    }
}

impl Machine for Counters {
    ghost use Rattle.std.specs.Prelude.{true};
    ghost use Rattle.counters.specs.Steps.{IsEnabled, IsFull, happens, parts, move_of};
    ghost use Rattle.counters.specs.Laws.{laws};

    type State = Counters;

    type Event = Event;

    type Fault = Fault;

    ghost Location = { ℕ };

    ghost parts = { parts };

    ghost move_of = { move_of };

    ghost is_kept = { λ _. true };

    fn enabled(state: &Counters, event: &Event) -> bool {
        state.is_enabled(event)
    }

    fn step(state: &mut Counters, event: &Event) -> Result<(), Fault>
        requires { IsEnabled state.old (move_of event.now) }
        ensures done { OnOk result (state.new ≡ happens state.old (move_of event.now)) }
        ensures fault { OnErr result (state.new ≡ state.old) }
        ensures full { OnErr result (IsFull state.old (move_of event.now)) }
    {
        match *event {
            Event::Gen(i) => state.generate(i),
            Event::Open(i) => state.open(i),
            Event::Close(i) => state.close(i)?,
            Event::Wait(i) => state.wait(i),
        }
        Ok(())
    }

    fn kept(_fault: &Fault) -> bool {
        true
    }

    ghost laws = { laws };
}

/// Plays the events. Whatever their order, once the last item is done each counter has what the items add to it.
pub fn add_all(state: &mut Counters, events: Vec<Event>) -> Result<usize, Fault>
    requires { IsNew state.old }
    ensures run { IfOk result (λ n. (n ≤ length events.items) × Runs parts state.old (first_moves move_of events.items n) state.new) }
    ensures stops { IfOk result (λ n. IfSome (slice_get events.items n) (λ event. IsEnabled state.new (move_of event) → ⊥)) }
    ensures fault { IfErr result (λ f. StopsAtFault parts move_of (λ _. true) events.items f state.old state.new) }
    ensures totals { HasTotals state.old state.new }
{
    play::<Counters>(state, events)
}
