// Which events may happen next.

ghost use Rattle.std.specs.Prelude.{◌≡◌, ◌+◌, ◌<◌, ◌≤◌, ℕ, ◌++◌, ◌∷◌, [], if◌then◌else◌, map, filter, IfOk, OnOk, length};
ghost use Rattle.std.specs.List.{range_with_len};
ghost use Rattle.base.specs.declared.item.Event.TheVariants as event;
ghost use Rattle.taskgraph.specs.Board.{allows, item_facts};
ghost use Rattle.base.specs.Limits.{most_items};
ghost use Rattle.device.specs.Allowed.{allowed_at};

use crate::state::RunState;
use base::item::{Event, Item};
use std::alloc::{AllocError, Global};
use taskgraph::Graph;

// Whether the order of the items allows an event.
pub(crate) fn is_allowed(graph: &Graph, event: Event) -> bool
    ensures { result ≡ allows graph.now event }
{
    match event {
        Event::Gen(item) => graph.may_generate(item as usize),
        Event::Open(item) => graph.may_open(item as usize),
        Event::Step(_) => false,
        Event::Close(item) => graph.is_open(item as usize),
        Event::Wait(item) => graph.may_pass(item as usize),
        Event::End => graph.may_end(),
    }
}

// One of the events, if it is allowed.
fn add_allowed(events: &mut Vec<Event>, graph: &Graph, event: Event) -> Result<(), AllocError>
    ensures { OnOk result (events.new.items ≡ events.old.items ++ (if allows graph.now event then event ∷ [] else [])) }
{
    if is_allowed(graph, event) {
        events.push(event)?;
    }
    Ok(())
}

// Past the last of so many items that may be opened or closed.
fn end_of(graph: &Graph, count: usize) -> usize
    ensures inside { result ≤ count }
    ensures from { graph.now.place < count → graph.now.place < result }
    ensures all { count ≤ graph.now.place → result ≡ count }
    ensures past { (i : ℕ) → result ≤ i → i < count → graph.now.place < i }
{
    let place = graph.place();
    if place < count { place + 1 } else { count }
}

// The closings that are allowed, by ascending item.
fn add_closings(events: &mut Vec<Event>, graph: &Graph, items: &[Item]) -> Result<(), AllocError>
    requires tasks { graph.now.tasks ≡ map item_facts items.now }
    requires few { length items.now ≤ most_items }
    ensures { OnOk result (events.new.items ≡ events.old.items ++ filter (allows graph.now) (map event.Close (range_with_len 0 (length items.now)))) }
{
    for i in graph.first()..end_of(graph, items.len()) {
        add_allowed(events, graph, Event::Close(i as u32))?;
    }
    Ok(())
}

// The openings that are allowed, by ascending item.
fn add_openings(events: &mut Vec<Event>, graph: &Graph, items: &[Item]) -> Result<(), AllocError>
    requires tasks { graph.now.tasks ≡ map item_facts items.now }
    requires few { length items.now ≤ most_items }
    ensures { OnOk result (events.new.items ≡ events.old.items ++ filter (allows graph.now) (map event.Open (range_with_len 0 (length items.now)))) }
{
    for i in graph.first()..end_of(graph, items.len()) {
        add_allowed(events, graph, Event::Open(i as u32))?;
    }
    Ok(())
}

// All events that are allowed, in order.
fn all_allowed(alloc: Global, graph: &Graph, items: &[Item]) -> Result<Vec<Event>, AllocError>
    requires tasks { graph.now.tasks ≡ map item_facts items.now }
    requires few { length items.now ≤ most_items }
    requires place { graph.now.place ≤ most_items + 1 }
    ensures { IfOk result (λ events. events.items ≡ allowed_at graph.now (length items.now)) }
{
    let mut events = Vec::new(alloc);
    add_closings(&mut events, graph, items)?;
    add_openings(&mut events, graph, items)?;
    let place = graph.place() as u32;
    add_allowed(&mut events, graph, Event::Gen(place))?;
    add_allowed(&mut events, graph, Event::Wait(place))?;
    add_allowed(&mut events, graph, Event::End)?;
    Ok(events)
}

impl<'a> RunState<'a> {
    ghost use Rattle.std.specs.Prelude.{◌≡◌, IfOk, IfNone, IfSome};
    ghost use Rattle.base.specs.Items.{plan};
    ghost use Rattle.base.specs.Machine.{all_enabled, enabled};
    ghost use Rattle.device.specs.Run.{state_of};
    ghost use Rattle.taskgraph.specs.Board.{HasNoTask, IsNextTask};

    /// Whether an event may happen next. It takes a few steps.
    pub fn is_enabled(&self, event: Event) -> bool
        ensures { result ≡ enabled (plan self.now.program) (state_of self.now) event }
    {
        !self.standing.ended && is_allowed(&self.standing.graph, event)
    }

    /// The lowest deferred item, from one on, that may be opened next.
    pub fn next_task(&self, from: u32) -> Option<u32>
        ensures next { IfSome result (IsNextTask (plan self.now.program) (state_of self.now) from) }
        ensures none { IfNone result (HasNoTask (plan self.now.program) (state_of self.now) from) }
    {
        if self.standing.ended {
            return None;
        }
        let item = self.standing.graph.next_task(from as usize)?;
        // There are at most 65,536 items: the number fits.
        let _items = self.image.items();
        Some(item as u32)
    }

    /// The events that may happen next. It looks at the items from the first that is deferred and not closed to the
    /// host's place. They are the closings by ascending item, the openings by ascending item, and then what
    /// the host may do, which is one event or none.
    pub fn enabled(&self) -> Result<Vec<Event>, AllocError>
        ensures { IfOk result (λ events. events.items ≡ all_enabled (plan self.now.program) (state_of self.now)) }
    {
        if self.standing.ended {
            return Ok(Vec::new(self.alloc));
        }
        all_allowed(self.alloc, &self.standing.graph, self.image.items())
    }
}
