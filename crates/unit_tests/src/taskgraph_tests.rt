//! Tasks that wait for others, from their clauses to the order in which they may run.

use base::item::{Depend, Item, ItemKind, LoopValues, Section};
use base::tree::{ArrayId, DependKind, DeviceId, Place};
use smallvec::SmallVec;
use std::alloc::{AllocError, Global};
use std::test::Fail;
use taskgraph::Graph;

/// A depend item on cells of the first array.
fn depend(kind: DependKind, first: u64, length: u64) -> Depend {
    Depend {
        kind,
        section: Section {
            array: ArrayId(0),
            first,
            length,
        },
        line: 1,
        column: 1,
    }
}

/// What an item is, whether it is deferred, and its depend items.
type Row<'a> = (ItemKind, bool, &'a [Depend]);

fn task(depends: &[Depend]) -> Row<'_> {
    (ItemKind::Target, true, depends)
}

/// An item that the host does itself.
fn at_once(kind: ItemKind, depends: &[Depend]) -> Row<'_> {
    (kind, false, depends)
}

fn item(alloc: Global, (kind, deferred, depends): Row<'_>) -> Result<Item, AllocError> {
    Ok(Item {
        kind,
        place: Place::default(),
        deferred,
        device: DeviceId::default(),
        maps: SmallVec::from_vec(Vec::new(alloc)),
        depends: SmallVec::from_vec(depends.to_vec(alloc)?),
        region: None,
        loops: LoopValues {
            values: SmallVec::from_vec(Vec::new(alloc)),
        },
    })
}

fn graph_of(alloc: Global, rows: &[Row<'_>]) -> Result<Graph, AllocError> {
    let mut items = Vec::new(alloc);
    for row in rows {
        items.push(item(alloc, *row)?)?;
    }
    Graph::new(alloc, &items)
}

// Each of these does what it says if that may be, and answers whether it did.

fn generates(graph: &mut Graph, item: usize) -> bool {
    let may = graph.may_generate(item);
    if may {
        graph.generate(item);
    }
    may
}

fn opens(graph: &mut Graph, item: usize) -> bool {
    let may = graph.may_open(item);
    if may {
        graph.opened(item);
    }
    may
}

fn closes(graph: &mut Graph, item: usize) -> bool {
    let may = graph.is_open(item);
    if may {
        graph.closed(item);
    }
    may
}

fn passes(graph: &mut Graph, item: usize) -> bool {
    let may = graph.may_pass(item);
    if may {
        graph.waited(item);
    }
    may
}

fn generates_all(graph: &mut Graph, items: usize) -> bool {
    for item in 0..items {
        if !generates(graph, item) {
            return false;
        }
    }
    true
}

// The tasks are generated, and the writer alone is ready.
fn are_generated(graph: &mut Graph) -> bool {
    !graph.ready(0)
        && generates_all(graph, 3)
        && graph.place() == 3
        && graph.ready(0)
        && !graph.ready(1)
        && !graph.ready(2)
        && !graph.ready(3)
}

// The writer runs, and no reader before it.
fn is_written(graph: &mut Graph) -> bool {
    opens(graph, 0)
        && graph.is_open(0)
        && !graph.ready(0)
        && !graph.ready(1)
        && !graph.ready(2)
        && !graph.is_closed(0)
        && closes(graph, 0)
        && !graph.is_open(0)
        && graph.is_closed(0)
        && !graph.is_closed(1)
        && graph.ready(1)
        && graph.ready(2)
        && !graph.ready(3)
}

// Both readers run, the later one first, and the wait is over behind them.
fn is_read(graph: &mut Graph) -> bool {
    opens(graph, 2)
        && opens(graph, 1)
        && closes(graph, 1)
        && !graph.ready(3)
        && closes(graph, 2)
        && graph.ready(3)
        && !graph.may_open(3)
        && passes(graph, 3)
        && graph.place() == 4
        && !graph.is_open(3)
        && !graph.is_closed(3)
        && !graph.is_closed(4)
        && !graph.ready(4)
}

#[test]
fn readers_wait_for_the_writer(rt: HostRuntime) -> Result<(), Fail> {
    let written = [depend(DependKind::Out, 0, 4)];
    let read = [depend(DependKind::In, 0, 4)];
    let rows = [
        task(&written),
        task(&read),
        task(&read),
        at_once(ItemKind::Wait, &[]),
    ];
    let mut graph = graph_of(rt.alloc(), &rows)?;
    assert!(rt; are_generated(&mut graph) && is_written(&mut graph) && is_read(&mut graph));
    Ok(())
}

// The host does its item, and stands at the next one behind it.
fn is_done_by_the_host(graph: &mut Graph) -> bool {
    graph.ready(0)
        && !graph.ready(1)
        && !graph.may_generate(0)
        && opens(graph, 0)
        && graph.place() == 0
        && closes(graph, 0)
        && graph.place() == 1
        && graph.ready(1)
}

#[test]
fn the_host_waits_for_itself(rt: HostRuntime) -> Result<(), Fail> {
    let read = [depend(DependKind::In, 0, 1)];
    let rows = [
        at_once(ItemKind::Host, &[]),
        at_once(ItemKind::Target, &read),
    ];
    let mut graph = graph_of(rt.alloc(), &rows)?;
    assert!(rt; is_done_by_the_host(&mut graph));
    Ok(())
}

// The wait is over once the first task is closed.
fn is_waited_for(graph: &mut Graph) -> bool {
    generates_all(graph, 2)
        && graph.ready(0)
        && graph.ready(1)
        && !graph.ready(2)
        && opens(graph, 0)
        && closes(graph, 0)
        && graph.ready(2)
}

#[test]
fn a_wait_with_a_clause_waits_for_what_it_names(rt: HostRuntime) -> Result<(), Fail> {
    let named = [depend(DependKind::Out, 0, 2)];
    let other = [depend(DependKind::InOut, 2, 2)];
    let waited = [depend(DependKind::In, 1, 1)];
    let rows = [task(&named), task(&other), at_once(ItemKind::Wait, &waited)];
    let mut graph = graph_of(rt.alloc(), &rows)?;
    assert!(rt; is_waited_for(&mut graph));
    Ok(())
}

// The task is the only one that may be opened, and runs.
fn is_next(graph: &mut Graph, task: usize) -> bool {
    let later = task.wrapping_add(1);
    !graph.ready(later)
        && !graph.may_end()
        && graph.next_task(0) == Some(task)
        && graph.next_task(later).is_none()
        && graph.first() == task
        && opens(graph, task)
        && graph.next_task(0).is_none()
        && closes(graph, task)
}

// So many tasks run one behind the other.
fn run_in_order(graph: &mut Graph, tasks: usize) -> bool {
    for task in 0..tasks {
        if !is_next(graph, task) {
            return false;
        }
    }
    true
}

/// 4,000 tasks, each of which waits for all before it.
#[test]
fn a_long_chain_runs_in_order(rt: HostRuntime) -> Result<(), Fail> {
    let cell = [depend(DependKind::InOut, 0, 1)];
    let mut graph = graph_of(rt.alloc(), &[task(&cell); 4000])?;
    assert!(rt;
        generates_all(&mut graph, 4000) && run_in_order(&mut graph, 4000) && graph.may_end()
    );
    Ok(())
}

// The last task comes behind the wait.
fn is_last(graph: &mut Graph) -> bool {
    passes(graph, 3) && graph.first() == 4 && generates(graph, 4) && graph.next_task(0) == Some(4)
}

/// A task on two cells, one on the first of them, a wait without a clause, and a task on both.
#[test]
fn a_task_waits_for_all_before_the_last(rt: HostRuntime) -> Result<(), Fail> {
    let both = [depend(DependKind::InOut, 0, 2)];
    let first = [depend(DependKind::InOut, 0, 1)];
    let read = [depend(DependKind::In, 0, 2)];
    let rows = [
        task(&both),
        task(&first),
        task(&read),
        at_once(ItemKind::Wait, &[]),
        task(&both),
    ];
    let mut graph = graph_of(rt.alloc(), &rows)?;
    assert!(rt; generates_all(&mut graph, 3) && run_in_order(&mut graph, 3) && is_last(&mut graph));
    Ok(())
}

// All of the 600 tasks may be opened, and behind them the item of the host.
fn are_openings(graph: &Graph) -> bool {
    graph.opening_count() == 601
        && graph.opening_at(0) == Some(0)
        && graph.opening_at(256) == Some(256)
        && graph.opening_at(599) == Some(599)
        && graph.opening_at(600) == Some(600)
        && graph.opening_at(601).is_none()
        && graph.closing_count() == 0
        && graph.closing_at(0).is_none()
}

// Three of them are open, in the first row, the second and the third.
fn are_opened(graph: &mut Graph) -> bool {
    opens(graph, 300)
        && opens(graph, 0)
        && opens(graph, 599)
        && graph.closing_count() == 3
        && graph.closing_at(0) == Some(0)
        && graph.closing_at(1) == Some(300)
        && graph.closing_at(2) == Some(599)
        && graph.closing_at(3).is_none()
}

// The others may be opened: before the 299th of them lie 298 items from 1 on.
fn are_left(graph: &Graph) -> bool {
    graph.opening_count() == 598
        && graph.opening_at(0) == Some(1)
        && graph.opening_at(298) == Some(299)
        && graph.opening_at(299) == Some(301)
        && graph.opening_at(597) == Some(600)
        && graph.next_task(300) == Some(301)
        && graph.next_task(599).is_none()
}

// One is closed, and the host opens its item.
fn is_one_closed(graph: &mut Graph) -> bool {
    closes(graph, 300)
        && opens(graph, 600)
        && graph.closing_count() == 3
        && graph.closing_at(1) == Some(599)
        && graph.closing_at(2) == Some(600)
        && graph.opening_count() == 597
        && graph.opening_at(597).is_none()
}

/// 600 tasks that wait for none, and an item of the host.
#[test]
fn what_may_happen_is_found_by_its_place(rt: HostRuntime) -> Result<(), Fail> {
    let mut rows = Vec::new(rt.alloc());
    for _ in 0..600 {
        rows.push(task(&[]))?;
    }
    rows.push(at_once(ItemKind::Host, &[]))?;
    let mut graph = graph_of(rt.alloc(), &rows)?;
    assert!(rt; generates_all(&mut graph, 600) && are_openings(&graph));
    assert!(rt; are_opened(&mut graph) && are_left(&graph) && is_one_closed(&mut graph));
    Ok(())
}
