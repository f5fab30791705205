use dependency_order::{Found, GroupedNeeds, Lists, find_order, order_grouped, reached_from};
use std::alloc::{AllocError, Global};

// Appends a number to a list, if there is such a list.
fn put(lists: &mut Lists, at: usize, number: usize) -> Result<(), AllocError> {
    if at < lists.len() {
        lists.push(at, number)?;
    }
    Ok(())
}

// So many lists, with these numbers after them.
fn lists(alloc: Global, len: usize, numbers: &[(usize, usize)]) -> Result<Lists, AllocError> {
    let mut all = Lists::new(alloc, len)?;
    for (at, number) in numbers {
        put(&mut all, *at, *number)?;
    }
    Ok(all)
}

fn is_order(found: &Found, nodes: &[usize]) -> bool {
    match found {
        Found::Order(order) => order.as_slice() == nodes,
        Found::Loop(_) => false,
    }
}

fn is_loop(found: &Found, nodes: &[usize]) -> bool {
    match found {
        Found::Order(_) => false,
        Found::Loop(named) => named.as_slice() == nodes,
    }
}

type Row = (usize, &'static [(usize, usize)], bool, &'static [usize]);

// How many nodes, who needs whom, and the only order or the only loop.
static GRAPHS: [Row; 6] = [
    (0, &[], true, &[]),
    (3, &[(0, 1), (1, 2)], true, &[2, 1, 0]),
    (
        3,
        &[(1, 0), (1, 0), (2, 1), (2, 0), (2, 1)],
        true,
        &[0, 1, 2],
    ),
    (2, &[(1, 1)], false, &[1]),
    (4, &[(0, 3), (1, 0), (2, 1), (3, 2)], false, &[0, 3, 2, 1]),
    (
        5,
        &[(0, 1), (1, 2), (2, 3), (2, 4), (4, 1)],
        false,
        &[1, 2, 4],
    ),
];

// Whether what is found is the order, or the loop, that is expected.
fn is_found(found: &Found, ordered: bool, nodes: &[usize]) -> bool {
    if ordered {
        is_order(found, nodes)
    } else {
        is_loop(found, nodes)
    }
}

fn is_found_in(alloc: Global, needs: &Lists, ordered: bool, nodes: &[usize]) -> bool {
    if !needs.is_closed() {
        return false;
    }
    match find_order(alloc, needs) {
        Ok(found) => is_found(&found, ordered, nodes),
        Err(_) => false,
    }
}

fn is_graph(alloc: Global, row: &Row) -> bool {
    match lists(alloc, row.0, row.1) {
        Ok(needs) => is_found_in(alloc, &needs, row.2, row.3),
        Err(_) => false,
    }
}

#[test]
fn an_order_or_a_loop(rt: HostRuntime) {
    let alloc = rt.alloc();
    assert_eq!(rt; GRAPHS.iter().position(|row| !is_graph(alloc, row)), None);
}

// Two gains in a ring: 0 and 2 are inputs, fed by 3 and 1, and each output needs all inputs of its gain. Where one output
// needs none, there is an order.
fn ring(alloc: Global, last: Option<usize>) -> Result<GroupedNeeds, AllocError> {
    let group_of = vec![in alloc; None, Some(0), None, last]?;
    let listed = lists(alloc, 4, &[(0, 3), (2, 1)])?;
    Ok(GroupedNeeds {
        listed,
        group_of,
        groups: lists(alloc, 2, &[(0, 0), (1, 2)])?,
    })
}

fn is_grouped_as(alloc: Global, needs: GroupedNeeds, ordered: bool, nodes: &[usize]) -> bool {
    if !needs.is_grouped() {
        return false;
    }
    match order_grouped(alloc, needs) {
        Ok(found) => is_found(&found, ordered, nodes),
        Err(_) => false,
    }
}

#[test]
fn a_ring_of_gains(rt: HostRuntime) -> Result<(), AllocError> {
    let alloc = rt.alloc();
    let looped = ring(alloc, Some(1))?;
    assert!(rt; is_grouped_as(alloc, looped, false, &[0, 3, 2, 1]));
    let ordered = ring(alloc, None)?;
    assert!(rt; is_grouped_as(alloc, ordered, true, &[3, 0, 1, 2]));
    Ok(())
}

// So many numbers from 0 on.
fn numbers_below(alloc: Global, many: usize) -> Result<Lists, AllocError> {
    let mut groups = Lists::new(alloc, 1)?;
    for node in 0..many {
        put(&mut groups, 0, node)?;
    }
    Ok(groups)
}

// So many nodes, and as many that need all of them.
fn large_group(alloc: Global, half: usize, looped: bool) -> Result<GroupedNeeds, AllocError> {
    let mut group_of = Vec::new(alloc);
    for _ in 0..half {
        group_of.push(None)?;
    }
    for _ in 0..half {
        group_of.push(Some(0))?;
    }
    let mut listed = Lists::new(alloc, group_of.len())?;
    if looped {
        put(&mut listed, 7, 65_535)?;
    }
    Ok(GroupedNeeds {
        listed,
        group_of,
        groups: numbers_below(alloc, half)?,
    })
}

fn is_order_of(found: &Found, count: usize) -> bool {
    match found {
        Found::Order(order) => order.len() == count,
        Found::Loop(_) => false,
    }
}

fn is_large(alloc: Global, needs: GroupedNeeds, looped: bool) -> bool {
    if !needs.is_grouped() {
        return false;
    }
    match order_grouped(alloc, needs) {
        Ok(found) => {
            if looped {
                is_loop(&found, &[7, 65_535])
            } else {
                is_order_of(&found, 65_536)
            }
        }
        Err(_) => false,
    }
}

// 32,768 nodes and as many that need all of them; then one of the first needs the last.
#[test]
fn a_large_group(rt: HostRuntime) -> Result<(), AllocError> {
    let alloc = rt.alloc();
    let needs = large_group(alloc, 32_768, false)?;
    assert!(rt; is_large(alloc, needs, false));
    let needs = large_group(alloc, 32_768, true)?;
    assert!(rt; is_large(alloc, needs, true));
    Ok(())
}

fn chain(alloc: Global, looped: bool) -> Result<Lists, AllocError> {
    let mut needs = Lists::new(alloc, 100_000)?;
    for node in 1..100_000 {
        put(&mut needs, 0, 100_000 - node)?;
        if node < 99_999 {
            put(&mut needs, node, node + 1)?;
        }
    }
    if looped {
        put(&mut needs, 99_999, 1)?;
    }
    Ok(needs)
}

fn is_chain(found: &Found, looped: bool) -> bool {
    match found {
        Found::Order(order) => {
            !looped && order.len() == 100_000 && order.as_slice().first() == Some(&99_999)
        }
        Found::Loop(nodes) => {
            looped && nodes.len() == 99_999 && nodes.as_slice().first() == Some(&1)
        }
    }
}

fn is_chain_found(alloc: Global, needs: &Lists, looped: bool) -> bool {
    if !needs.is_closed() {
        return false;
    }
    match find_order(alloc, needs) {
        Ok(found) => is_chain(&found, looped),
        Err(_) => false,
    }
}

// A chain of 100,000 in the order that is worst for the search, open and closed; and before it a node that needs all others,
// so that its list is gone on with at each of them.
#[test]
fn long_chains(rt: HostRuntime) -> Result<(), AllocError> {
    let alloc = rt.alloc();
    let needs = chain(alloc, false)?;
    assert!(rt; is_chain_found(alloc, &needs, false));
    let needs = chain(alloc, true)?;
    assert!(rt; is_chain_found(alloc, &needs, true));
    Ok(())
}

static LINKS: [(usize, usize); 7] = [(0, 1), (1, 2), (2, 3), (3, 7), (4, 5), (5, 4), (6, 8)];

static THROUGH: [bool; 9] = [false, true, true, false, true, true, false, false, false];

static REACHED: [Option<usize>; 9] = [
    None,
    Some(0),
    Some(0),
    Some(0),
    None,
    None,
    None,
    None,
    Some(6),
];

fn are_reached(alloc: Global, links: &Lists) -> bool {
    if !links.is_closed() || links.len() != 9 {
        return false;
    }
    match reached_from(alloc, links, &THROUGH, &[0, 6]) {
        Ok(found) => found.as_slice() == REACHED.as_slice(),
        Err(_) => false,
    }
}

// A path through marked nodes, one that no mark lets on, and a ring that nothing reaches.
#[test]
fn what_is_reached(rt: HostRuntime) -> Result<(), AllocError> {
    let links = lists(rt.alloc(), 9, &LINKS)?;
    assert!(rt; are_reached(rt.alloc(), &links));
    Ok(())
}
