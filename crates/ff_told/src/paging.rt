//! Pages of the parts of a published board, and the replies to `page`.
ghost use Rattle.std.specs.Prelude.{◌≡◌, ℕ, ◌+◌, ◌-◌, ◌<◌, ◌≤◌, ◌^◌, IfOk, length, Some, slice_get};
ghost use Rattle.ff_propagate.specs.Boards.{IsBoardOf};
ghost use Rattle.ff_propagate.specs.Facts.{value_at};
ghost use Rattle.ff_propagate.specs.Parts.{IsPart, AreTouching};
ghost use Rattle.ff_propagate.specs.declared.parts.Part.{Part as PartSpec};
ghost use Rattle.ff_journal.specs.Epochs.{givens_of as epoch_givens, last_begun};
ghost use Rattle.ff_journal.specs.Publications.{published as epochs_published};
ghost use Rattle.ff_told.specs.Paged.{AreAllPages, ArePagesOf, AreLaid, HavePages, KeepAllPages, IsPageAt, IsPageToldAt, reply_of};
ghost use Rattle.ff_told.specs.Earlier.{AreUnvisited};
ghost use Rattle.ff_pages.specs.Paging.{visited_of};

use ff_journal::{Entry, givens_of, published};
use ff_pages::{PageAnswer, Pages};
use ff_parts::parts;
use ff_propagate::{Facts, Part};
use ff_tables::{Given, Items, NoMemory};
use ff_types::Case;
use ff_viewer::Reply;
use std::alloc::Global;
use std::sync::Arc;

// The pages of one part.
fn pages_for(
    alloc: Global,
    case: &Case,
    givens: &Arc<Items<Given>, Global>,
    facts: &Arc<Facts, Global>,
    budget: u64,
    part: &Part,
) -> Result<Pages, NoMemory>
    requires turns { budget ≤ 1000000000 }
    requires board { IsBoardOf case.now.system.vars case.now.system.constraints facts.now.value }
    requires part { IsPart case.now.system.vars case.now.system.constraints (value_at facts.now.value) part.now.vars }
    requires touching { AreTouching case.now.system.constraints part.now.vars part.now.touching }
    ensures part { IfOk result (λ pages. pages.part ≡ part.now) }
    ensures pages { IfOk result (λ pages. ArePagesOf case.now budget givens.now.value facts.now.value pages) }
    ensures unvisited { IfOk result (λ pages. visited_of pages ≡ 0) }
{
    let own = part.copy(alloc)?;
    let given = Arc::try_clone(givens)?;
    let shown = Arc::try_clone(facts)?;
    let pages = Pages::new(alloc, given, shown, own, budget);
    Ok(pages)
}

// The pages of these parts.
fn pages_of(
    alloc: Global,
    case: &Case,
    givens: &Arc<Items<Given>, Global>,
    facts: &Arc<Facts, Global>,
    budget: u64,
    parts: &[Part],
) -> Result<Vec<Pages>, NoMemory>
    requires turns { budget ≤ 1000000000 }
    requires board { IsBoardOf case.now.system.vars case.now.system.constraints facts.now.value }
    requires each { (k : ℕ) (part : PartSpec) → slice_get parts.now k ≡ Some part
        → IsPart case.now.system.vars case.now.system.constraints (value_at facts.now.value) part.vars }
    requires touching { (k : ℕ) (part : PartSpec) → slice_get parts.now k ≡ Some part
        → AreTouching case.now.system.constraints part.vars part.touching }
    ensures laid { IfOk result (λ pages. AreLaid case.now budget givens.now.value facts.now.value parts.now pages.items) }
    ensures unvisited { IfOk result (λ pages. AreUnvisited pages.items) }
{
    let mut pages = Vec::new(alloc);
    for i in 0..parts.len() {
        let one = pages_for(alloc, case, givens, facts, budget, &parts[i])?;
        pages.push(one)?;
    }
    Ok(pages)
}

/// New pages of all parts of the last published board, of which these are the facts.
pub fn all_pages(
    alloc: Global,
    case: &Case,
    journal: &Items<Entry>,
    budget: u64,
    facts: &Facts,
) -> Result<Vec<Pages>, NoMemory>
    requires turns { budget ≤ 1000000000 }
    requires room { length journal.now < 2 ^ 32 }
    requires constraints { length case.now.system.constraints < 2 ^ 32 }
    requires published { 0 < epochs_published journal.now }
    requires begun { epochs_published journal.now ≤ last_begun journal.now + 1 }
    requires board { IsBoardOf case.now.system.vars case.now.system.constraints facts.now }
    ensures pages { IfOk result (λ pages. AreAllPages case.now budget (epoch_givens case.now journal.now (epochs_published journal.now - 1)) facts.now pages.items) }
    ensures unvisited { IfOk result (λ pages. AreUnvisited pages.items) }
{
    let epoch = published(journal.as_slice()) - 1;
    let givens = Arc::new(alloc, givens_of(alloc, case, journal, epoch)?)?;
    let kept = Arc::new(alloc, facts.copy(alloc)?)?;
    let found = parts(alloc, &case.system, facts)?;
    let list = found.as_slice();
    let pages = pages_of(alloc, case, &givens, &kept, budget, list)?;
    Ok(pages)
}

// A page of the part at the place.
pub(crate) fn page_at(
    alloc: Global,
    case: &Case,
    pages: &mut [Pages],
    i: usize,
    k: u32,
) -> Result<PageAnswer, NoMemory>
    requires there { i < length pages.old }
    requires constraints { length case.now.system.constraints < 2 ^ 32 }
    requires pages { HavePages case.now pages.old }
    ensures pages { KeepAllPages case.now pages.old pages.new }
    ensures page { IfOk result (λ answer. IsPageAt case.now pages.old i k answer) }
{
    let one = &mut pages[i];
    let answer = one.page(alloc, case, k)?;
    Ok(answer)
}

// What a page's answer is told as.
fn told_by(answer: PageAnswer) -> Reply
    ensures { result ≡ reply_of answer }
{
    match answer {
        PageAnswer::Page(solutions) => Reply::Page(solutions),
        PageAnswer::Past { count } => Reply::Past(count),
        PageAnswer::None(log) => Reply::None(log),
        PageAnswer::Unfinished => Reply::Unfinished,
    }
}

/// The reply to `page` of a part, if there is such a part. The pages are those of all parts of a board. They stay so, also after want
/// of memory.
pub fn page_told(
    alloc: Global,
    case: &Case,
    pages: &mut [Pages],
    part: u32,
    k: u32,
) -> Result<Reply, NoMemory>
    requires constraints { length case.now.system.constraints < 2 ^ 32 }
    requires pages { HavePages case.now pages.old }
    ensures pages { KeepAllPages case.now pages.old pages.new }
    ensures told { IfOk result (λ told. IsPageToldAt case.now pages.old part k told) }
{
    if pages.len() <= part as usize {
        return Ok(Reply::NoPart);
    }
    let answer = page_at(alloc, case, pages, part as usize, k)?;
    Ok(told_by(answer))
}
