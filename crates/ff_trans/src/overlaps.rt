//! The triples of faces that have a common place.
ghost use Rattle.std.specs.Prelude.{◌≡◌, ◌<◌, ◌≤◌, ◌+◌, ℕ, true, List, length, IfOk, IfErr, OnOk};
ghost use Rattle.std.specs.List.{All};
ghost use Rattle.ff_basics.specs.NumberedLists.{lists_in};
ghost use Rattle.ff_types.specs.declared.limits.TheConstants.{MOST_FACES as most_faces};
ghost use Rattle.ff_types.specs.Pairs.{pair_at};
ghost use Rattle.ff_cells.specs.FaceSets.{IsFaceList};
ghost use Rattle.ff_pairs.specs.Together.{ArePairsOf};
ghost use Rattle.ff_types.specs.declared.limits.TheConstants.{MOST_CONSTRAINTS as most_constraints};
ghost use Rattle.ff_trans.specs.Triples.{AreTriples, WhyNoTriples};
ghost use Rattle.ff_cells.specs.declared.cell.Cell.{Cell as CellRow};
ghost use Rattle.ff_trans.specs.Rows.{IsFirst, IsRow, HoldBoth, AreIndexed, AreShared, IsClear, IsReach, AreFoundTo};

use crate::bounds::most_triples;
use crate::found::Found;
use crate::guessing::guesses_of;
use crate::index::{empty_lists, index};
use crate::marking::mark_row;
use crate::sharing::share;
use crate::taking::take;
use crate::width::width;
use ff_cells::Cell;
use ff_tables::{Items, NoMemory};
use ff_types::{Listing, MOST_CONSTRAINTS, No, Pairs};
use std::alloc::Global;

// Takes the triple of the pair with the number `n` and the face `k`, if they share a cell.
fn take_triple(
    found: &mut Found,
    cells: &[Cell],
    pairs: &Pairs,
    n: u32,
    k: u32,
    cell: Option<usize>,
) -> Result<(), No>
    requires pairs { ArePairsOf cells.now pairs.now }
    requires pair { n < length pairs.now }
    requires above { (pair_at pairs.now n).1 < k }
    requires first { IsFirst cells.now (pair_at pairs.now n).0 (pair_at pairs.now n).1 k cell }
    requires found { AreFoundTo cells.now pairs.now n k found.old }
    ensures found { OnOk result (AreFoundTo cells.now pairs.now n (k + 1) found.new) }
    ensures keeps { OnOk result (found.new.keeps ≡ found.old.keeps) }
    ensures refused { IfErr result (WhyNoTriples cells.now pairs.now) }
{
    let (f, h) = pairs.faces(n);
    match cell {
        Some(i) => take(found, pairs, f, h, k, &cells[i]),
        None => Ok(()),
    }
}

// Takes the triples of the pair with the number `n` and the faces above it, and clears their row.
fn take_row(
    found: &mut Found,
    cells: &[Cell],
    pairs: &Pairs,
    n: u32,
    row: &mut [Option<usize>],
    reach: usize,
) -> Result<(), No>
    requires few { length row.old ≤ most_faces }
    requires below { All (λ c. All (λ f. f < length row.old) c.faces) cells.now }
    requires pairs { ArePairsOf cells.now pairs.now }
    requires pair { n < length pairs.now }
    requires row { IsRow cells.now (pair_at pairs.now n).0 (pair_at pairs.now n).1 (length row.old) row.old }
    requires reach { IsReach row.old reach }
    requires found { AreFoundTo cells.now pairs.now n 0 found.old }
    ensures found { OnOk result (AreFoundTo cells.now pairs.now (n + 1) 0 found.new) }
    ensures keeps { OnOk result (found.new.keeps ≡ found.old.keeps) }
    ensures long { OnOk result (length row.new ≡ length row.old) }
    ensures clear { OnOk result (IsClear row.new) }
    ensures refused { IfErr result (WhyNoTriples cells.now pairs.now) }
{
    let (_f, h) = pairs.faces(n);
    for k in h + 1..reach as u32 {
        let cell = row[k as usize];
        row[k as usize] = None;
        take_triple(found, cells, pairs, n, k, cell)?;
    }
    Ok(())
}

// Takes the triples of the pair with the number `n`, where the list has the cells that its faces share.
fn take_pair(
    found: &mut Found,
    cells: &[Cell],
    pairs: &Pairs,
    list: &[usize],
    n: u32,
    row: &mut [Option<usize>],
) -> Result<(), No>
    requires few { length row.old ≤ most_faces }
    requires lists { All IsFaceList cells.now }
    requires below { All (λ c. All (λ f. f < length row.old) c.faces) cells.now }
    requires pairs { ArePairsOf cells.now pairs.now }
    requires pair { n < length pairs.now }
    requires both { HoldBoth cells.now (pair_at pairs.now n).0 (pair_at pairs.now n).1 list.now }
    requires clear { IsClear row.old }
    requires found { AreFoundTo cells.now pairs.now n 0 found.old }
    ensures found { OnOk result (AreFoundTo cells.now pairs.now (n + 1) 0 found.new) }
    ensures keeps { OnOk result (found.new.keeps ≡ found.old.keeps) }
    ensures long { OnOk result (length row.new ≡ length row.old) }
    ensures clear { OnOk result (IsClear row.new) }
    ensures refused { IfErr result (WhyNoTriples cells.now pairs.now) }
{
    let (_f, h) = pairs.faces(n);
    let reach = mark_row(row, cells, list, h);
    take_row(found, cells, pairs, n, row, reach)
}

// Whether the pair before the one with the number `n` has the same first face.
fn goes_on(pairs: &Pairs, n: u32) -> bool
    requires { n < length pairs.now }
    ensures { result ≡ true → (m : ℕ) × (m + 1 ≡ n) × ((pair_at pairs.now m).0 ≡ (pair_at pairs.now n).0) }
{
    if n == 0 {
        return false;
    }
    pairs.faces(n - 1).0 == pairs.faces(n).0
}

// Lists the cells that the first face of the pair with the number `n` shares, where the pair before has another.
fn share_next(
    shared: &mut [Vec<usize>],
    cells: &[Cell],
    pairs: &Pairs,
    lists: &[Vec<usize>],
    n: u32,
) -> Result<(), NoMemory>
    requires wide { length lists.now ≡ length shared.old }
    requires lists { All IsFaceList cells.now }
    requires below { All (λ c. All (λ f. f < length shared.old) c.faces) cells.now }
    requires pairs { ArePairsOf cells.now pairs.now }
    requires pair { n < length pairs.now }
    requires index { AreIndexed cells.now (length cells.now) (length lists.now) (lists_in lists.now) }
    requires before { (m : ℕ) → m + 1 ≡ n → AreShared cells.now (pair_at pairs.now m).0 (length lists.now) (lists_in shared.old) }
    ensures { IfOk result (λ _. AreShared cells.now (pair_at pairs.now n).0 (length lists.now) (lists_in shared.new)) }
{
    if goes_on(pairs, n) {
        return Ok(());
    }
    let (f, _h) = pairs.faces(n);
    share(shared, cells, lists[f as usize].as_slice(), f)
}

// Takes the triples of all pairs.
fn take_pairs(
    found: &mut Found,
    cells: &[Cell],
    pairs: &Pairs,
    lists: &[Vec<usize>],
    shared: &mut [Vec<usize>],
    row: &mut [Option<usize>],
) -> Result<(), No>
    requires few { length row.old ≤ most_faces }
    requires wide { length lists.now ≡ length row.old }
    requires shared { length shared.old ≡ length row.old }
    requires lists { All IsFaceList cells.now }
    requires below { All (λ c. All (λ f. f < length row.old) c.faces) cells.now }
    requires pairs { ArePairsOf cells.now pairs.now }
    requires index { AreIndexed cells.now (length cells.now) (length lists.now) (lists_in lists.now) }
    requires clear { IsClear row.old }
    requires found { AreFoundTo cells.now pairs.now 0 0 found.old }
    ensures found { OnOk result (AreFoundTo cells.now pairs.now (length pairs.now) 0 found.new) }
    ensures keeps { OnOk result (found.new.keeps ≡ found.old.keeps) }
    ensures long { OnOk result (length row.new ≡ length row.old) }
    ensures shared { OnOk result (length shared.new ≡ length shared.old) }
    ensures clear { OnOk result (IsClear row.new) }
    ensures refused { IfErr result (WhyNoTriples cells.now pairs.now) }
{
    for n in 0..pairs.count() as u32 {
        share_next(shared, cells, pairs, lists, n)?;
        let (_f, h) = pairs.faces(n);
        take_pair(found, cells, pairs, shared[h as usize].as_slice(), n, row)?;
    }
    Ok(())
}

// No triples are found yet.
fn nothing(alloc: Global, keeps: bool, guesses: Vec<u32>) -> Found
    ensures keeps { result.keeps ≡ keeps }
    ensures none { (cells : List CellRow) (pairs : List (ℕ × ℕ)) → AreFoundTo cells pairs 0 0 result }
{
    Found {
        list: Listing::new(alloc),
        count: 0,
        keeps,
        guesses,
    }
}

// No face has a cell.
fn clear_row(alloc: Global, width: usize) -> Result<Vec<Option<usize>>, NoMemory>
    ensures long { IfOk result (λ row. length row.items ≡ width) }
    ensures clear { IfOk result (λ row. IsClear row.items) }
{
    Ok(vec![in alloc; None; width]?)
}

// A list for each face, without cells.
fn no_cells(alloc: Global, width: usize) -> Result<Vec<Vec<usize>>, NoMemory>
    ensures { IfOk result (λ lists. length lists.items ≡ width) }
{
    empty_lists(alloc, width)
}

// Counts the triples, where there may be too many, so that none is made then.
fn count_first(
    alloc: Global,
    cells: &[Cell],
    pairs: &Pairs,
    lists: &[Vec<usize>],
    shared: &mut [Vec<usize>],
    row: &mut [Option<usize>],
) -> Result<(), No>
    requires few { length row.old ≤ most_faces }
    requires wide { length lists.now ≡ length row.old }
    requires shared { length shared.old ≡ length row.old }
    requires lists { All IsFaceList cells.now }
    requires below { All (λ c. All (λ f. f < length row.old) c.faces) cells.now }
    requires pairs { ArePairsOf cells.now pairs.now }
    requires index { AreIndexed cells.now (length cells.now) (length lists.now) (lists_in lists.now) }
    requires clear { IsClear row.old }
    ensures long { OnOk result (length row.new ≡ length row.old) }
    ensures shared { OnOk result (length shared.new ≡ length shared.old) }
    ensures clear { OnOk result (IsClear row.new) }
    ensures refused { IfErr result (WhyNoTriples cells.now pairs.now) }
{
    if most_triples(pairs) <= MOST_CONSTRAINTS {
        return Ok(());
    }
    let mut counted = nothing(alloc, false, Vec::new(alloc));
    take_pairs(&mut counted, cells, pairs, lists, shared, row)
}

// The triples of all pairs, listed once it is known that there aren't too many.
fn listed_triples(alloc: Global, cells: &[Cell], pairs: &Pairs) -> Result<Listing, No>
    requires cells { All IsFaceList cells.now }
    requires pairs { ArePairsOf cells.now pairs.now }
    ensures made { IfOk result (AreTriples cells.now pairs.now) }
    ensures few { IfOk result (λ list. length list ≤ most_constraints) }
    ensures refused { IfErr result (WhyNoTriples cells.now pairs.now) }
{
    let lists = index(alloc, cells, width(cells))?;
    let mut shared = no_cells(alloc, lists.len())?;
    let mut row = clear_row(alloc, lists.len())?;
    count_first(
        alloc,
        cells,
        pairs,
        lists.as_slice(),
        shared.as_mut_slice(),
        row.as_mut_slice(),
    )?;
    let mut listed = nothing(alloc, true, guesses_of(alloc, pairs)?);
    take_pairs(
        &mut listed,
        cells,
        pairs,
        lists.as_slice(),
        shared.as_mut_slice(),
        row.as_mut_slice(),
    )?;
    Ok(listed.list)
}

/// The transitivity constraints: of each three faces that stand together in one of the cells, in order, with the corners
/// of the first such cell. Where these are the cells of a folded pattern, they are those of each three faces with a common
/// place. `pairs` are the pairs of these cells. Refused exactly where there are more than `MOST_CONSTRAINTS`, before any is
/// made.
pub fn triples(alloc: Global, cells: &Items<Cell>, pairs: &Pairs) -> Result<Listing, No>
    requires cells { All IsFaceList cells.now }
    requires pairs { ArePairsOf cells.now pairs.now }
    ensures made { IfOk result (λ list. AreTriples cells.now pairs.now list) }
    ensures few { IfOk result (λ list. length list ≤ most_constraints) }
    ensures refused { IfErr result (WhyNoTriples cells.now pairs.now) }
{
    listed_triples(alloc, cells.as_slice(), pairs)
}
