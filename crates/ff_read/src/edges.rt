//! The edges of a FOLD object.
ghost use Rattle.std.specs.Prelude.{◌≡◌, ◌<◌, ◌≤◌, ◌^◌, ◌∷◌, ◌++◌, ℕ, length, map, [], IsTrue, IfOk, MatchResult, ◌↔◌};
ghost use Rattle.serde_json.specs.View.{view};
ghost use Rattle.ff_types.specs.Patterns.{Joins, edge_at};
ghost use Rattle.ff_read.specs.Refused.{HaveEdges, AreEdges};
ghost use Rattle.ff_read.specs.Seen.{edge_key, AreRising, HaveSeen, Adds};
ghost use Rattle.ff_read.specs.Read.{IsBadEdgeItem};

use crate::items::{FromJson, ItemNo, all_of};
use ff_tables::{Items, NoMemory};
use ff_types::EdgeEnds;
use serde_json::Value;
use std::alloc::Global;
use std::collections::BTreeSet;

// One number for the two vertices that an edge joins, in either direction.
fn key_of(ends: EdgeEnds) -> u64
    ensures { result ≡ edge_key ends }
{
    let low = ends.a.min(ends.b) as u64;
    let high = ends.a.max(ends.b) as u64;
    (low << 32) + high
}

// Whether the edge joins two different of `n` vertices.
fn joins(n: usize, ends: EdgeEnds) -> bool
    ensures { IsTrue result ↔ Joins n ends }
{
    (ends.a as usize) < n && (ends.b as usize) < n && ends.a != ends.b
}

// Adds an edge, where it joins two different of `n` vertices that none of the edges joins.
fn add_edge(
    n: usize,
    edges: &mut Vec<EdgeEnds>,
    seen: &mut BTreeSet<u64>,
    ends: EdgeEnds,
) -> Result<bool, NoMemory>
    requires few { n ≤ 2 ^ 32 }
    requires seen { HaveSeen n edges.old.items seen.old }
    ensures { IfOk result (λ added. Adds n edges.old.items ends edges.new.items seen.new added) }
{
    if !joins(n, ends) {
        return Ok(false);
    }
    if !seen.insert(key_of(ends))? {
        return Ok(false);
    }
    edges.push(ends)?;
    Ok(true)
}

// Whether each edge joins two different of `n` vertices.
fn all_join(n: usize, edges: &[EdgeEnds]) -> bool
    ensures { IsTrue result → (e : ℕ) → e < length edges.now → Joins n (edge_at edges.now e) }
{
    for i in 0..edges.len() {
        if !joins(n, edges[i]) {
            return false;
        }
    }
    true
}

fn keys_of(alloc: Global, edges: &[EdgeEnds]) -> Result<Vec<u64>, NoMemory>
    ensures { IfOk result (λ keys. keys.items ≡ map edge_key edges.now) }
{
    Ok(edges.iter().map(|ends| key_of(*ends)).collect(alloc)?)
}

// Whether each number is below all that follow it.
fn are_rising(keys: &[u64]) -> bool
    ensures { IsTrue result → AreRising keys.now (length keys.now) }
{
    for i in 1..keys.len() {
        if keys[i - 1] >= keys[i] {
            return false;
        }
    }
    true
}

// Whether each edge joins two different of `n` vertices, and no two join the same two. Sorting their numbers takes less
// time than to look each up.
fn are_apart(alloc: Global, n: usize, edges: &[EdgeEnds]) -> Result<bool, NoMemory>
    ensures { IfOk result (λ apart. IsTrue apart → AreEdges n edges.now) }
{
    if !all_join(n, edges) {
        return Ok(false);
    }
    let mut keys = keys_of(alloc, edges)?;
    keys.sort_unstable();
    Ok(are_rising(keys.as_slice()))
}

// What `edges_of` gives, item by item: each edge is looked up among those before it.
fn one_by_one(alloc: Global, n: usize, list: &[Value]) -> Result<Items<EdgeEnds>, ItemNo>
    requires few { (n ≤ 2 ^ 32) × (length list.now < 2 ^ 32) }
    ensures { MatchResult result (HaveEdges n (map view list.now)) (IsBadEdgeItem n (map view list.now)) }
{
    let mut edges = Vec::new(alloc);
    let mut seen = BTreeSet::new(alloc);
    for i in 0..list.len() {
        let Some(ends) = EdgeEnds::from_json(&list[i]) else {
            return Err(ItemNo::Bad { index: i as u32 });
        };
        match add_edge(n, &mut edges, &mut seen, ends) {
            Ok(true) => {}
            Ok(false) => return Err(ItemNo::Bad { index: i as u32 }),
            Err(NoMemory) => return Err(ItemNo::NoMemory),
        }
    }
    Ok(Items::of(edges))
}

/// The edges that all items spell, each joining two different of `n` vertices that none before it joins, or the first
/// item that spells no such edge. The items are gone through one by one only where some item is none.
pub fn edges_of(alloc: Global, n: usize, list: &[Value]) -> Result<Items<EdgeEnds>, ItemNo>
    requires few { (n ≤ 2 ^ 32) × (length list.now < 2 ^ 32) }
    ensures { MatchResult result (HaveEdges n (map view list.now)) (IsBadEdgeItem n (map view list.now)) }
{
    let read: Result<Items<EdgeEnds>, ItemNo> = all_of(alloc, list);
    if let Ok(edges) = read {
        match are_apart(alloc, n, edges.as_slice()) {
            Ok(true) => return Ok(edges),
            Ok(false) => {}
            Err(NoMemory) => return Err(ItemNo::NoMemory),
        }
    }
    one_by_one(alloc, n, list)
}
