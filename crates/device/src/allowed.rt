// The events that the order of the items allows: how many they are, and the one at a place, with no list of them.

ghost use Rattle.std.specs.Prelude.{◌≡◌, ◌+◌, ◌≤◌, ◌∷◌, [], filter, length, map, slice_get};
ghost use Rattle.std.specs.List.{range_with_len};
ghost use Rattle.base.specs.Limits.{most_items};
ghost use Rattle.base.specs.declared.item.Event.TheVariants as event;
ghost use Rattle.device.specs.Allowed.{allowed_at};
ghost use Rattle.taskgraph.specs.Board.{allows};

use crate::enabled::is_allowed;
use base::item::Event;
use taskgraph::Graph;

// How many of some events are allowed.
fn count_of(graph: &Graph, events: &[Event]) -> usize
    ensures { result ≡ length (filter (allows graph.now) events.now) }
{
    let mut count = 0;
    'events: for event in events {
        if is_allowed(graph, *event) {
            count += 1;
        }
    }
    count
}

// Of those of some events that are allowed, the one at a place.
fn nth_of(graph: &Graph, events: &[Event], place: usize) -> Option<Event>
    ensures { result ≡ slice_get (filter (allows graph.now) events.now) place }
{
    let mut left = place;
    'events: for event in events {
        if is_allowed(graph, *event) {
            if left == 0 {
                return Some(*event);
            }
            left -= 1;
        }
    }
    None
}

// Of the closings that are allowed, by ascending item, the one at a place.
fn nth_closing(graph: &Graph, place: usize) -> Option<Event>
    requires { length graph.now.tasks ≤ most_items }
    ensures { result ≡ slice_get (filter (allows graph.now) (map event.Close (range_with_len 0 (length graph.now.tasks)))) place }
{
    let item = graph.closing_at(place)?;
    Some(Event::Close(item as u32))
}

// Of the openings that are allowed, by ascending item, the one at a place.
fn nth_opening(graph: &Graph, place: usize) -> Option<Event>
    requires { length graph.now.tasks ≤ most_items }
    ensures { result ≡ slice_get (filter (allows graph.now) (map event.Open (range_with_len 0 (length graph.now.tasks)))) place }
{
    let item = graph.opening_at(place)?;
    Some(Event::Open(item as u32))
}

/// How many events the order of the items allows.
pub fn allowed_count(graph: &Graph) -> usize
    requires few { length graph.now.tasks ≤ most_items }
    requires place { graph.now.place ≤ most_items + 1 }
    ensures { result ≡ length (allowed_at graph.now (length graph.now.tasks)) }
{
    let here = graph.place() as u32;
    let host = [Event::Gen(here), Event::Wait(here), Event::End];
    graph.closing_count() + graph.opening_count() + count_of(graph, &host)
}

/// Of all events that the order of the items allows, the one at a place: the closings and then the openings by ascending
/// item, and last what the host may do.
pub fn nth_allowed(graph: &Graph, place: usize) -> Option<Event>
    requires few { length graph.now.tasks ≤ most_items }
    requires place { graph.now.place ≤ most_items + 1 }
    ensures { result ≡ slice_get (allowed_at graph.now (length graph.now.tasks)) place }
{
    let closings = graph.closing_count();
    if place < closings {
        return nth_closing(graph, place);
    }
    let later = place - closings;
    let openings = graph.opening_count();
    if later < openings {
        return nth_opening(graph, later);
    }
    let here = graph.place() as u32;
    let host = [Event::Gen(here), Event::Wait(here), Event::End];
    nth_of(graph, &host, later - openings)
}
