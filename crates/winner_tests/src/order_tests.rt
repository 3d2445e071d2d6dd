// Orders and cycles of graphs, and what they cost.
use load_order::{OrderError, check_order, order};
use mod_rules::Graph;
use std::process::Abort;
use std::time::{CpuClock, Duration};

fn graph_with(rt: &(impl AllocGlobal + Abort), count: u32, edges: &[(u32, u32)]) -> Graph {
    let edges = edges.to_vec(rt.alloc()).expect(rt, "memory");
    Graph::new(count, edges).expect(rt, "edges that ascend")
}

fn order_of(rt: &(impl AllocGlobal + Abort), graph: &Graph) -> Vec<u32> {
    order(rt.alloc(), graph).expect(rt, "an order")
}

fn cycle_of(rt: &(impl AllocGlobal + Abort), graph: &Graph) -> Vec<u32> {
    match order(rt.alloc(), graph) {
        Err(OrderError::Cycle(cycle)) => cycle,
        _ => panic!(rt; "no cycle is told"),
    }
}

#[test]
fn the_earliest_free_node_comes_next(rt: HostRuntime) {
    let graph = graph_with(&rt, 3, &[(2, 0)]);
    assert_eq!(&rt; order_of(&rt, &graph).as_slice(), [1, 2, 0].as_slice());
    assert!(&rt;
        order_of(&rt, &graph_with(&rt, 0, &[]))
            .as_slice()
            .is_empty()
    );
}

#[test]
fn a_cycle_is_listed_along_its_edges(rt: HostRuntime) {
    let itself = graph_with(&rt, 1, &[(0, 0)]);
    assert_eq!(&rt; cycle_of(&rt, &itself).as_slice(), [0].as_slice());
    let pair = graph_with(&rt, 4, &[(1, 2), (2, 1), (2, 3)]);
    assert_eq!(&rt; cycle_of(&rt, &pair).as_slice(), [1, 2].as_slice());
    let turned = graph_with(&rt, 3, &[(0, 2), (1, 0), (2, 1)]);
    assert_eq!(&rt; cycle_of(&rt, &turned).as_slice(), [0, 2, 1].as_slice());
    let entered = graph_with(&rt, 5, &[(2, 0), (2, 3), (3, 4), (4, 2)]);
    assert_eq!(&rt; cycle_of(&rt, &entered).as_slice(), [2, 3, 4].as_slice());
}

// How many lists of so many nodes there are, doubled nodes included, up to four nodes.
fn lists_of(count: u32) -> u32 {
    match count {
        0 | 1 => 1,
        2 => 4,
        3 => 27,
        _ => 256,
    }
}

// Of the lists of so many nodes, in their order, the one with this number.
fn list_at(rt: &(impl AllocGlobal + Abort), count: u32, number: u32) -> Vec<u32> {
    let mut list = Vec::new(rt.alloc());
    let mut rest = number;
    for _ in 0..count {
        list.push(rest % count).expect(rt, "memory");
        rest /= count;
    }
    list.as_mut_slice().reverse();
    list
}

// Whether the first node stands in front of the second.
fn is_in_front(list: &[u32], first: &u32, second: &u32) -> bool {
    let before = list.iter().position(|node| node == first);
    let after = list.iter().position(|node| node == second);
    before < after
}

// Whether a list of so many nodes has each of them, and keeps the edges.
fn is_lawful(count: u32, edges: &[(u32, u32)], list: &[u32]) -> bool {
    for node in 0..count {
        if !list.contains(&node) {
            return false;
        }
    }
    edges
        .iter()
        .all(|(first, second)| is_in_front(list, first, second))
}

// The first lawful list of all, if there is one.
fn first_lawful(
    rt: &(impl AllocGlobal + Abort),
    count: u32,
    edges: &[(u32, u32)],
) -> Option<Vec<u32>> {
    for number in 0..lists_of(count) {
        let list = list_at(rt, count, number);
        if is_lawful(count, edges, list.as_slice()) {
            return Some(list);
        }
    }
    None
}

// Whether the call tells this order, or a cycle where there is none.
fn tells(rt: &(impl AllocGlobal + Abort), graph: &Graph, wanted: &Option<Vec<u32>>) -> bool {
    match (order(rt.alloc(), graph), wanted) {
        (Ok(list), Some(first)) => list.as_slice() == first.as_slice(),
        (Err(OrderError::Cycle(_)), None) => true,
        _ => false,
    }
}

// Looks at every list of so many nodes.
fn agrees(rt: &(impl AllocGlobal + Abort), count: u32, edges: &[(u32, u32)]) {
    let graph = graph_with(rt, count, edges);
    for number in 0..lists_of(count) {
        let list = list_at(rt, count, number);
        let lawful = is_lawful(count, edges, list.as_slice());
        assert_eq!(rt; check_order(&graph, list.as_slice()), lawful);
    }
    assert!(rt; tells(rt, &graph, &first_lawful(rt, count, edges)));
}

// Of the graphs of so many nodes, the edges of the one with this number.
fn edges_of(rt: &(impl AllocGlobal + Abort), count: u32, number: u32) -> Vec<(u32, u32)> {
    let mut edges = Vec::new(rt.alloc());
    let mut rest = number;
    for first in 0..count {
        for second in 0..count {
            if rest % 2 == 1 {
                edges.push((first, second)).expect(rt, "memory");
            }
            rest /= 2;
        }
    }
    edges
}

#[test]
fn small_graphs_agree_with_a_search_over_all_lists(rt: HostRuntime) {
    for (count, graphs) in [(0u32, 1u32), (1, 2), (2, 16), (3, 512)] {
        for number in 0..graphs {
            agrees(&rt, count, edges_of(&rt, count, number).as_slice());
        }
    }
    agrees(&rt, 4, &[(0, 1), (1, 2), (2, 3), (3, 0)]);
    agrees(&rt, 4, &[(0, 1), (1, 3), (3, 1)]);
    agrees(&rt, 4, &[(0, 1), (2, 3), (3, 2)]);
    agrees(&rt, 4, &[(0, 2), (1, 0), (1, 3), (3, 2)]);
    agrees(&rt, 4, &[(0, 3), (1, 3), (2, 3)]);
    agrees(&rt, 4, &[(1, 0), (2, 1), (3, 2)]);
    agrees(&rt, 4, &[(1, 1)]);
    agrees(&rt, 4, &[(2, 0), (3, 1)]);
    agrees(&rt, 4, &[(3, 0), (3, 1), (3, 2)]);
}

// So many nodes, with edges from each to the nearest below it, at most so many; and where the
// graph is closed, one from the first node to the last.
fn ladder(rt: &(impl AllocGlobal + Abort), count: u32, wide: u32, closed: bool) -> Graph {
    let mut edges = Vec::new(rt.alloc());
    if closed {
        edges
            .push((0, count.saturating_sub(1)))
            .expect(rt, "memory");
    }
    for node in 0..count {
        for below in node.saturating_sub(wide)..node {
            edges.push((node, below)).expect(rt, "memory");
        }
    }
    Graph::new(count, edges).expect(rt, "edges that ascend")
}

#[test]
fn a_long_chain_is_turned_round(rt: HostRuntime) {
    let graph = ladder(&rt, 2000, 1, false);
    let list = order_of(&rt, &graph);
    assert_eq!(&rt; list.len(), 2000);
    for (i, node) in list.iter().enumerate() {
        assert!(&rt; *node == 1999 - i as u32);
    }
    assert!(&rt; check_order(&graph, list.as_slice()));
}

#[test]
fn a_long_chain_that_is_closed_is_a_cycle(rt: HostRuntime) {
    let list = cycle_of(&rt, &ladder(&rt, 2000, 1, true));
    assert_eq!(&rt; list.len(), 2000);
    for (i, node) in list.iter().enumerate() {
        assert!(&rt; *node == (2000 - i as u32) % 2000);
    }
}

// The least processor time of five tries.
fn least_time(rt: &(impl AllocGlobal + CpuClock + Abort), graph: &Graph) -> Duration {
    let mut least = Duration::MAX;
    for _ in 0..5u8 {
        let start = rt.thread_cpu_time().expect(rt, "a clock");
        let _told = order(rt.alloc(), graph);
        let now = rt.thread_cpu_time().expect(rt, "a clock");
        least = least.min(now.saturating_sub(start));
    }
    least
}

// Whether four times the edges take less than nine times as long, and less than half a second, in
// one of ten rounds: other work on the machine may slow down some of them.
fn takes_linear_time(rt: &(impl AllocGlobal + CpuClock + Abort), closed: bool) -> bool {
    let (small, large) = (ladder(rt, 2000, 12, closed), ladder(rt, 2000, 50, closed));
    for _ in 0..10u8 {
        let few = least_time(rt, &small);
        let many = least_time(rt, &large);
        if many.as_nanos() / 9 < few.as_nanos() && many.as_millis() < 500 {
            return true;
        }
    }
    false
}

#[test]
fn four_times_the_edges_take_less_than_nine_times_the_time(rt: HostRuntime) {
    for closed in [false, true] {
        assert!(&rt; takes_linear_time(&rt, closed), "{closed}");
    }
}
