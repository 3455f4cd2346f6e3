//! Replies by the facts of the last published epoch.
ghost use Rattle.std.specs.Prelude.{◌≡◌, ℕ, ◌+◌, ◌-◌, ◌<◌, ◌^◌, ◌++◌, ◌∷◌, [], IfOk, List, Option, length, map, Some};
ghost use Rattle.ff_tables.specs.declared.orders.Order.{Order as OrderSpec};
ghost use Rattle.ff_types.specs.Pairs.{number_of};
ghost use Rattle.ff_propagate.specs.Boards.{IsBoardOf};
ghost use Rattle.ff_propagate.specs.Facts.{seen as fact_value};
ghost use Rattle.ff_parts.specs.Lists.{vars_of};
ghost use Rattle.ff_viewer.specs.declared.commands.Command.TheVariants.{Ask};
ghost use Rattle.ff_viewer.specs.declared.commands.Question.TheVariants.{Board as AskBoard};
ghost use Rattle.ff_journal.specs.declared.entries.Entry.TheVariants.{Said};
ghost use Rattle.ff_journal.specs.declared.entries.Outcome.TheVariants.{Board};
ghost use Rattle.ff_journal.specs.Epochs.{last_of, last_begun};
ghost use Rattle.ff_journal.specs.Publications.{outcomes, published as epochs_published, IsLast};
ghost use Rattle.ff_journal.specs.Journals.{IsSaid, IsLegal, commands_of};
ghost use Rattle.ff_journal.specs.Shown.{AreShown, NamesFit};
ghost use Rattle.ff_journal.specs.Waiting.{IsBoardCommand};
ghost use Rattle.ff_journal.specs.Answering.{IsPlain, IsPlainQuestion, order_by, pair_or_impossible, impossible_reply, IsPartsReplyBy, IsAnswerBy, shown_after, shows_board as is_board_shown};

use crate::explaining::why_told;
use crate::pinning::{reply_to_pin, reply_to_unpin, seen};
use crate::saying::published;
use crate::{Entry, Outcome};
use ff_parts::parts;
use ff_propagate::{Fact, Facts, Part};
use ff_tables::{Items, NoMemory, Order};
use ff_types::Case;
use ff_viewer::{Command, Question, Reply};
use std::alloc::Global;

// Whether the last outcome is a board after one more entry.
fn shown_next(entry: &Entry, shown: bool) -> bool
    ensures { result ≡ shown_after entry.now shown }
{
    match entry {
        Entry::Said { .. } => shown,
        Entry::Published { outcome, .. } => match outcome {
            Outcome::Board(_) => true,
            Outcome::Impossible { .. } => false,
        },
    }
}

/// Whether the last published epoch has a board.
pub fn shows_board(journal: &[Entry]) -> bool
    ensures { result ≡ is_board_shown (last_of (outcomes journal.now)) }
{
    let mut shown = false;
    for i in 0..journal.len() {
        shown = shown_next(&journal[i], shown);
    }
    shown
}

fn value_of(fact: Option<Fact>) -> Option<Order>
    ensures { result ≡ fact_value fact }
{
    match fact {
        Some(fact) => Some(fact.value),
        None => None,
    }
}

/// The board of facts, one item per pair.
pub fn board_of(alloc: Global, vars: u32, facts: &Facts) -> Result<Items<Option<Order>>, NoMemory>
    requires wide { length facts.now ≡ vars }
    ensures { IfOk result (λ board. board ≡ map fact_value facts.now) }
{
    let mut board = Vec::with_capacity(alloc, vars as usize)?;
    for v in 0..vars {
        board.push_reserved(value_of(facts.fact(v)));
    }
    Ok(Items::of(board))
}

// The reply to `order`.
fn order_told(case: &Case, facts: &Facts, f: u32, g: u32) -> Reply
    requires wide { length facts.now ≡ case.now.system.vars }
    ensures { result ≡ order_by f g facts.now (number_of case.now.pairs f g) }
{
    match case.pairs.number(f, g) {
        None => Reply::NoPair,
        Some(n) => Reply::Value(seen(f, g, value_of(facts.fact(n)))),
    }
}

// The variables of each part.
fn lists_of(alloc: Global, parts: &[Part]) -> Result<Items<Items<u32>>, NoMemory>
    ensures { IfOk result (λ lists. lists ≡ vars_of parts.now) }
{
    let mut lists = Vec::with_capacity(alloc, parts.len())?;
    for i in 0..parts.len() {
        lists.push_reserved(parts[i].vars.copy(alloc)?);
    }
    Ok(Items::of(lists))
}

// The reply to `parts`.
fn parts_told(alloc: Global, case: &Case, facts: &Facts) -> Result<Reply, NoMemory>
    requires board { IsBoardOf case.now.system.vars case.now.system.constraints facts.now }
    requires few { length case.now.system.constraints < 2 ^ 32 }
    ensures { IfOk result (λ told. IsPartsReplyBy case.now facts.now told) }
{
    let found = parts(alloc, &case.system, facts)?;
    let lists = lists_of(alloc, found.as_slice())?;
    Ok(Reply::Parts(lists))
}

// The reply to a question about a pair where the epoch is impossible.
fn impossible_pair(case: &Case, f: u32, g: u32) -> Reply
    ensures { result ≡ pair_or_impossible (number_of case.now.pairs f g) }
{
    match case.pairs.number(f, g) {
        None => Reply::NoPair,
        Some(_) => Reply::Impossible,
    }
}

// The reply to a question where the last published epoch, this one, is impossible.
fn impossible_answer(case: &Case, epoch: u32, question: &Question) -> Reply
    ensures { result ≡ impossible_reply case.now epoch question.now }
{
    match question {
        Question::Board => Reply::Shown { epoch, board: None },
        Question::Peek => Reply::Shown { epoch, board: None },
        Question::Order { f, g } => impossible_pair(case, *f, *g),
        Question::Parts => Reply::Impossible,
        Question::Page { .. } => Reply::Impossible,
        Question::Why { f, g } => impossible_pair(case, *f, *g),
        Question::Stack { .. } => Reply::Impossible,
    }
}

// The reply with the board of an epoch.
fn shown_told(alloc: Global, case: &Case, facts: &Facts, epoch: u32) -> Result<Reply, NoMemory>
    requires wide { length facts.now ≡ case.now.system.vars }
    ensures { IfOk result (λ told. told ≡ Reply.Shown epoch (Some (map fact_value facts.now))) }
{
    let board = board_of(alloc, case.system.vars, facts)?;
    Ok(Reply::Shown {
        epoch,
        board: Some(board),
    })
}

// The reply to a plain question where the last published epoch, this one, has the board of the facts.
fn board_answer(
    alloc: Global,
    case: &Case,
    facts: &Facts,
    epoch: u32,
    question: &Question,
) -> Result<Reply, NoMemory>
    requires constraints { length case.now.system.constraints < 2 ^ 32 }
    requires plain { IsPlainQuestion question.now }
    requires board { IsBoardOf case.now.system.vars case.now.system.constraints facts.now }
    ensures { IfOk result (λ told. IsAnswerBy case.now facts.now epoch question.now told) }
{
    match question {
        Question::Board => {
            let told = shown_told(alloc, case, facts, epoch)?;
            Ok(told)
        }
        Question::Peek => {
            let told = shown_told(alloc, case, facts, epoch)?;
            Ok(told)
        }
        Question::Order { f, g } => Ok(order_told(case, facts, *f, *g)),
        Question::Parts => {
            let told = parts_told(alloc, case, facts)?;
            Ok(told)
        }
        Question::Why { f, g } => {
            let told = why_told(alloc, case, facts, *f, *g)?;
            Ok(told)
        }
        Question::Page { .. } => unreachable!(),
        Question::Stack { .. } => unreachable!(),
    }
}

// The reply to a plain question.
fn ask(
    alloc: Global,
    case: &Case,
    journal: &Items<Entry>,
    facts: &Facts,
    viewer: u32,
    question: &Question,
) -> Result<Reply, NoMemory>
    requires few { length journal.now < 2 ^ 32 - 1 }
    requires constraints { length case.now.system.constraints < 2 ^ 32 }
    requires legal { (budget : ℕ) × IsLegal case.now budget journal.now }
    requires published { 0 < epochs_published journal.now }
    requires plain { IsPlainQuestion question.now }
    requires begun { question.now ≡ AskBoard → epochs_published journal.now ≡ last_begun journal.now + 1 }
    requires shown { (e : ℕ) (board : List (Option OrderSpec)) → IsLast journal.now e (Board board) → AreShown case.now journal.now e (Board board) facts.now }
    ensures said { IfOk result (λ told. (budget : ℕ) → IsSaid case.now budget journal.now viewer (length (commands_of viewer journal.now)) (Ask question.now) told) }
    ensures names { IfOk result (λ told. NamesFit case.now (Some facts.now) (Said viewer (length (commands_of viewer journal.now)) (Ask question.now) told)) }
{
    let _ = viewer;
    let epoch = published(journal.as_slice()) - 1;
    if shows_board(journal.as_slice()) {
        let told = board_answer(alloc, case, facts, epoch, question)?;
        Ok(told)
    } else {
        Ok(impossible_answer(case, epoch, question))
    }
}

/// The reply to a viewer's command that is neither `page` nor `stack`, with which the journal stays legal once the viewer's entry
/// is added. It goes by a legal journal that has a publication, for `board` of the last epoch begun, and by facts that are the
/// last published board, with the levels that replies to `why` name since then; where that epoch is impossible any facts
/// do. The levels of a reply to `why` are those of these facts.
pub fn reply(
    alloc: Global,
    case: &Case,
    journal: &Items<Entry>,
    facts: &Facts,
    viewer: u32,
    command: &Command,
) -> Result<Reply, NoMemory>
    requires few { length journal.now < 2 ^ 32 - 1 }
    requires constraints { length case.now.system.constraints < 2 ^ 32 }
    requires legal { (budget : ℕ) × IsLegal case.now budget journal.now }
    requires published { 0 < epochs_published journal.now }
    requires plain { IsPlain command.now }
    requires begun { IsBoardCommand command.now → epochs_published journal.now ≡ last_begun journal.now + 1 }
    requires shown { (e : ℕ) (board : List (Option OrderSpec)) → IsLast journal.now e (Board board) → AreShown case.now journal.now e (Board board) facts.now }
    ensures said { IfOk result (λ told. (budget : ℕ) → IsSaid case.now budget journal.now viewer (length (commands_of viewer journal.now)) command.now told) }
    ensures legal { IfOk result (λ told. (budget : ℕ) → IsLegal case.now budget journal.now
        → IsLegal case.now budget (journal.now ++ Said viewer (length (commands_of viewer journal.now)) command.now told ∷ [])) }
    ensures names { IfOk result (λ told. NamesFit case.now (Some facts.now) (Said viewer (length (commands_of viewer journal.now)) command.now told)) }
{
    match command {
        Command::Pin { f, g, value } => Ok(reply_to_pin(case, journal, viewer, *f, *g, *value)),
        Command::Unpin { f, g } => Ok(reply_to_unpin(case, journal, viewer, *f, *g)),
        Command::Ask(question) => {
            let told = ask(alloc, case, journal, facts, viewer, question)?;
            Ok(told)
        }
    }
}
