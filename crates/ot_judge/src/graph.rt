//! Ranks and places for the elements of lists, made from the neighbours in the lists. Elements have one rank where they are on
//! a cycle together (a strongly connected component, found by two walks as Kosaraju and Sharir do), and ranks follow the
//! lists. Places go by rank, and among equal ranks by one chain into which each element is put behind its neighbour in the
//! list that has it first. No contract speaks of either: the search checks them.

use crate::news::entry;
use crate::seed::Seed;
use ot_isa::Tag;
use std::alloc::{AllocError, Global};
use std::collections::HashMap;

/// By element its rank and its place, counted from 1, and by rank some element that has it.
#[derive(Drop)]
pub struct Order {
    pub ranks: HashMap<Tag, usize, Seed>,
    pub owners: HashMap<usize, Tag>,
    pub places: HashMap<Tag, usize, Seed>,
}

// The elements by number, which stand directly after and before which in some list, and the chain.
#[derive(Drop)]
struct Graph {
    tags: Vec<Tag>,
    after: Vec<Vec<usize>>,
    before: Vec<Vec<usize>>,
    next: Vec<Option<usize>>,
    first: Option<usize>,
}

// Puts an element into the chain behind another one.
fn chain_behind(next: &mut Vec<Option<usize>>, n: usize, p: usize) -> Result<(), AllocError> {
    let behind = next.get(p).copied().unwrap_or(None);
    next.push(behind)?;
    if let Some(link) = next.get_mut(p) {
        *link = Some(n);
    }
    Ok(())
}

// Puts an element into the chain, behind another one or at its front.
fn chain_in(graph: &mut Graph, n: usize, previous: Option<usize>) -> Result<(), AllocError> {
    match previous {
        Some(p) => chain_behind(&mut graph.next, n, p),
        None => {
            graph.next.push(graph.first)?;
            graph.first = Some(n);
            Ok(())
        }
    }
}

// The number of an element, which stands behind another one or at the front where it is met first.
fn number_of(
    alloc: Global,
    graph: &mut Graph,
    numbers: &mut HashMap<Tag, usize, Seed>,
    a: Tag,
    previous: Option<usize>,
) -> Result<usize, AllocError> {
    if let Some(n) = numbers.get(&a) {
        return Ok(*n);
    }
    let n = graph.tags.len();
    numbers.insert(a, n)?;
    graph.tags.push(a)?;
    graph.after.push(Vec::new(alloc))?;
    graph.before.push(Vec::new(alloc))?;
    chain_in(graph, n, previous)?;
    Ok(n)
}

// Notes that one element stands directly before another, where that was not noted last.
fn join(graph: &mut Graph, p: usize, n: usize) -> Result<(), AllocError> {
    if let Some(row) = graph.after.get_mut(p) {
        if row.last().copied() == Some(n) {
            return Ok(());
        }
        row.push(n)?;
    }
    if let Some(row) = graph.before.get_mut(n) {
        row.push(p)?;
    }
    Ok(())
}

// Adds a list's neighbours.
fn add_list(
    alloc: Global,
    graph: &mut Graph,
    numbers: &mut HashMap<Tag, usize, Seed>,
    xs: &[Tag],
) -> Result<(), AllocError> {
    let mut previous = None;
    for a in xs {
        let n = number_of(alloc, graph, numbers, *a, previous)?;
        if let Some(p) = previous {
            join(graph, p, n)?;
        }
        previous = Some(n);
    }
    Ok(())
}

// The graph of the lists.
fn graph_of(alloc: Global, lists: &[Vec<Tag>]) -> Result<Graph, AllocError> {
    let mut graph = Graph {
        tags: Vec::new(alloc),
        after: Vec::new(alloc),
        before: Vec::new(alloc),
        next: Vec::new(alloc),
        first: None,
    };
    let mut numbers = HashMap::with_hasher(alloc, Seed::of_lists(lists));
    for v in lists {
        add_list(alloc, &mut graph, &mut numbers, v.as_slice())?;
    }
    Ok(graph)
}

// How many steps a walk over these rows takes at most: one for each entry, and two for each row.
fn most_steps(rows: &[Vec<usize>]) -> usize {
    let mut most: usize = 0;
    for row in rows {
        most = most.saturating_add(row.len()).saturating_add(2);
    }
    most
}

// A walk along the edges: what it has met, what it has left for good, and the path on which it stands.
#[derive(Drop)]
struct Walk {
    met: Vec<bool>,
    left: Vec<usize>,
    path: Vec<(usize, usize)>,
}

// Goes to an element, unless it was met before.
fn enter(walk: &mut Walk, i: usize) -> Result<(), AllocError> {
    if let Some(met) = walk.met.get_mut(i) {
        if !*met {
            *met = true;
            walk.path.push((i, 0))?;
        }
    }
    Ok(())
}

// One step: to what stands after the last element of the path, or back; false at the end.
fn step(walk: &mut Walk, after: &[Vec<usize>]) -> Result<bool, AllocError> {
    let Some((i, k)) = walk.path.pop() else {
        return Ok(false);
    };
    match entry(after, i, k) {
        Some(j) => {
            walk.path.push((i, k.saturating_add(1)))?;
            enter(walk, j)?;
        }
        None => walk.left.push(i)?,
    }
    Ok(true)
}

// The walk from one element, to its end.
fn walk_from(
    walk: &mut Walk,
    after: &[Vec<usize>],
    root: usize,
    most: usize,
) -> Result<(), AllocError> {
    enter(walk, root)?;
    for _ in 0..most {
        if !step(walk, after)? {
            return Ok(());
        }
    }
    Ok(())
}

// The elements in the order in which a walk leaves them.
fn left_order(alloc: Global, after: &[Vec<usize>]) -> Result<Vec<usize>, AllocError> {
    let mut walk = Walk {
        met: vec![in alloc; false; after.len()]?,
        left: Vec::new(alloc),
        path: Vec::new(alloc),
    };
    let most = most_steps(after);
    for root in 0..after.len() {
        walk_from(&mut walk, after, root, most)?;
    }
    Ok(walk.left)
}

// Gives an element a rank, unless it has one, and notes it.
fn give(
    ranks: &mut Vec<Option<usize>>,
    path: &mut Vec<usize>,
    i: usize,
    rank: usize,
) -> Result<(), AllocError> {
    if let Some(slot) = ranks.get_mut(i) {
        if slot.is_none() {
            *slot = Some(rank);
            path.push(i)?;
        }
    }
    Ok(())
}

// Gives these elements a rank, but for those that have one.
fn give_all(
    ranks: &mut Vec<Option<usize>>,
    path: &mut Vec<usize>,
    row: &[usize],
    rank: usize,
) -> Result<(), AllocError> {
    for i in row {
        give(ranks, path, *i, rank)?;
    }
    Ok(())
}

// Gives a rank to an element and to what leads to it and has none yet.
fn give_back(
    alloc: Global,
    ranks: &mut Vec<Option<usize>>,
    before: &[Vec<usize>],
    root: usize,
    rank: usize,
) -> Result<(), AllocError> {
    let mut path = Vec::new(alloc);
    give(ranks, &mut path, root, rank)?;
    for _ in 0..before.len() {
        let Some(i) = path.pop() else {
            return Ok(());
        };
        if let Some(row) = before.get(i) {
            give_all(ranks, &mut path, row.as_slice(), rank)?;
        }
    }
    Ok(())
}

// The rank of each element.
fn ranks_of(alloc: Global, graph: &Graph) -> Result<Vec<Option<usize>>, AllocError> {
    let left = left_order(alloc, graph.after.as_slice())?;
    let mut ranks = vec![in alloc; None; graph.tags.len()]?;
    let mut rank = 0;
    for root in left.iter().rev() {
        give_back(alloc, &mut ranks, graph.before.as_slice(), *root, rank)?;
        rank = rank.saturating_add(1);
    }
    Ok(ranks)
}

// The elements of the chain, by rank.
fn chain_by_rank(
    alloc: Global,
    graph: &Graph,
    ranks: &[Option<usize>],
) -> Result<Vec<Vec<usize>>, AllocError> {
    let mut rows = Vec::new(alloc);
    for _ in ranks {
        rows.push(Vec::new(alloc))?;
    }
    let mut here = graph.first;
    for _ in ranks {
        let Some(i) = here else {
            return Ok(rows);
        };
        let rank = ranks.get(i).copied().unwrap_or(None);
        if let Some(row) = rows.get_mut(rank.unwrap_or(0)) {
            row.push(i)?;
        }
        here = graph.next.get(i).copied().unwrap_or(None);
    }
    Ok(rows)
}

// Notes the elements of one rank.
fn note_row(
    order: &mut Order,
    tags: &[Tag],
    row: &[usize],
    rank: usize,
    place: usize,
) -> Result<usize, AllocError> {
    let mut last = place;
    for i in row {
        if let Some(a) = tags.get(*i) {
            last = last.saturating_add(1);
            order.ranks.insert(*a, rank)?;
            order.owners.insert(rank, *a)?;
            order.places.insert(*a, last)?;
        }
    }
    Ok(last)
}

/// Ranks and places for the elements of these lists, in time linear in their entries.
pub fn make_order(alloc: Global, lists: &[Vec<Tag>]) -> Result<Order, AllocError> {
    let graph = graph_of(alloc, lists)?;
    let ranks = ranks_of(alloc, &graph)?;
    let rows = chain_by_rank(alloc, &graph, ranks.as_slice())?;
    let seed = Seed::of(graph.tags.as_slice());
    let mut order = Order {
        ranks: HashMap::with_hasher(alloc, seed),
        owners: HashMap::new(alloc),
        places: HashMap::with_hasher(alloc, seed),
    };
    let mut place = 0;
    for rank in 0..rows.len() {
        place = note_row(
            &mut order,
            graph.tags.as_slice(),
            rows[rank].as_slice(),
            rank,
            place,
        )?;
    }
    Ok(order)
}
