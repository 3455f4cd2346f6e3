//! What pages of an earlier board have found is kept for the parts of another.
ghost use Rattle.std.specs.Prelude.{◌≡◌, ℕ, ◌+◌, ◌<◌, ◌≤◌, ◌↔◌, ◌^◌, [], IsTrue, MatchOption, length, slice_get, Some};
ghost use Rattle.ff_pages.specs.declared.pages.Pages.{Pages as PagesSpec};
ghost use Rattle.ff_pages.specs.Paging.{StandsIn};
ghost use Rattle.ff_told.specs.Paged.{KeepAllPages};
ghost use Rattle.ff_told.specs.Earlier.{turns_by, turns_in, AreOrdered, AreAlongside, CanKeepFor, HaveTaken, HaveTakenFrom, NoneTakes, TakesAt, NoneLeast, LeastAt};

use ff_pages::Pages;
use ff_types::Case;

// The place of the pages of the part with this least variable, by halving.
fn least_at(pages: &[Pages], var: u32) -> Option<usize>
    requires ordered { (case : _) × (budget : ℕ) × AreOrdered case budget pages.now }
    ensures { MatchOption result (NoneLeast pages.now var) (λ i. LeastAt pages.now var i) }
{
    match pages.binary_search_by_key(&var, |one: &Pages| one.least()) {
        Ok(i) => Some(i),
        Err(_) => None,
    }
}

// Whether the earlier pages can be kept for the part of these.
fn is_kept(case: &Case, earlier: &Pages, one: &Pages) -> bool
    requires earlier { StandsIn case.now.system.vars case.now.system.constraints earlier.now }
    requires stands { StandsIn case.now.system.vars case.now.system.constraints one.now }
    ensures { IsTrue result ↔ CanKeepFor case.now.system.constraints earlier.now one.now }
{
    earlier.same(case, one.facts(), one.part())
}

// The place of the pages for whose part the earlier ones can be kept.
fn place_of(case: &Case, pages: &[Pages], earlier: &Pages) -> Option<usize>
    requires ordered { AreOrdered case.now earlier.now.budget pages.now }
    requires earlier { StandsIn case.now.system.vars case.now.system.constraints earlier.now }
    ensures { MatchOption result (NoneTakes case.now.system.constraints earlier.now pages.now) (λ i. TakesAt case.now.system.constraints earlier.now pages.now i) }
{
    let i = least_at(pages, earlier.least())?;
    if is_kept(case, earlier, &pages[i]) {
        return Some(i);
    }
    None
}

// Where the earlier pages can be kept for one of these parts, what they found is taken over. The turns of what is dropped: else the
// earlier search, and there what stood in its place.
fn take_one(case: &Case, pages: &mut [Pages], earlier: Pages) -> u64
    requires ordered { AreOrdered case.now earlier.budget pages.old }
    requires earlier { StandsIn case.now.system.vars case.now.system.constraints earlier }
    ensures pages { KeepAllPages case.now pages.old pages.new }
    ensures ordered { AreOrdered case.now earlier.budget pages.new }
    ensures taken { HaveTaken case.now.system.constraints earlier pages.old pages.new }
    ensures turns { turns_in pages.new + result ≡ turns_in pages.old + turns_by earlier }
    ensures few { result ≤ 1000000000 }
{
    match place_of(case, pages, &earlier) {
        None => earlier.used(),
        Some(i) => {
            let one = &mut pages[i];
            one.take_over(case, earlier)
        }
    }
}

/// What each of the earlier pages has found and visited is taken over by those for whose part it can be kept: the part has the same
/// variables, and the constraints that touch it have the same values on their other variables. The turns of what is dropped. It takes
/// no memory.
pub fn take_over(case: &Case, pages: &mut [Pages], earlier: &mut Vec<Pages>) -> u64
    requires ordered { AreAlongside case.now pages.old earlier.old.items }
    requires few { length earlier.old.items < 2 ^ 32 }
    ensures pages { KeepAllPages case.now pages.old pages.new }
    ensures taken { HaveTakenFrom case.now.system.constraints earlier.old.items 0 pages.old pages.new }
    ensures none { earlier.new.items ≡ [] }
    ensures turns { turns_in pages.new + result ≡ turns_in pages.old + turns_in earlier.old.items }
{
    let mut dropped = 0;
    while let Some(one) = earlier.pop() {
        dropped += take_one(case, pages, one);
    }
    dropped
}

/// The turns that the searches of these pages have visited, all together. It takes no memory.
pub fn turns_of(case: &Case, pages: &[Pages]) -> u64
    requires ordered { (budget : ℕ) × AreOrdered case.now budget pages.now }
    requires few { length pages.now < 2 ^ 32 }
    ensures { result ≡ turns_in pages.now }
{
    let _ = case;
    let mut turns = 0;
    for i in 0..pages.len() {
        turns += pages[i].used();
    }
    turns
}
