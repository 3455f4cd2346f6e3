//! Logs that no stacking keeps the creases.
ghost use Rattle.std.specs.Prelude.{◌≡◌, ◌<◌, ◌^◌, [], IfOk, length};
ghost use Rattle.ff_propagate.specs.Boards.{IsBoardOf};
ghost use Rattle.ff_propagate.specs.Closing.{ClosesTo};
ghost use Rattle.ff_propagate.specs.FactRule.{MeetsFactRule};
ghost use Rattle.ff_propagate.specs.Facts.{value_at};
ghost use Rattle.ff_propagate.specs.Parts.{AreTouching, IsPart};
ghost use Rattle.ff_propagate.specs.Solutions.{solutions_of};
ghost use Rattle.ff_propagate.specs.declared.facts.Closed.TheVariants.{Clash};
ghost use Rattle.ff_log.specs.Grounds.{IsAcceptedIn};

use ff_log::Log;
use ff_propagate::{ClashAt, Facts, Part};
use ff_refute::{log_of_clash, log_of_part};
use ff_tables::NoMemory;
use ff_types::Case;
use std::alloc::Global;

// A log of where the closure of the starts clashes.
pub(crate) fn clash_log(
    alloc: Global,
    case: &Case,
    facts: &Facts,
    at: ClashAt,
) -> Result<Log, NoMemory>
    requires { ClosesTo case.now.system.vars case.now.system.constraints case.now.starts (Clash facts.now at) }
    ensures { IfOk result (λ log. IsAcceptedIn case.now [] log.lines) }
{
    log_of_clash(alloc, case, &case.starts, facts, at)
}

// A log of a part that has no solution.
pub(crate) fn part_log(
    alloc: Global,
    case: &Case,
    facts: &Facts,
    part: &Part,
) -> Result<Log, NoMemory>
    requires rule { MeetsFactRule case.now.system.vars case.now.system.constraints case.now.starts facts.now }
    requires board { IsBoardOf case.now.system.vars case.now.system.constraints facts.now }
    requires part { IsPart case.now.system.vars case.now.system.constraints (value_at facts.now) part.now.vars }
    requires touching { AreTouching case.now.system.constraints part.now.vars part.now.touching }
    requires few { length case.now.system.constraints < 2 ^ 32 }
    requires none { solutions_of case.now.system.constraints (value_at facts.now) part.now.vars ≡ [] }
    ensures { IfOk result (λ log. IsAcceptedIn case.now [] log.lines) }
{
    log_of_part(alloc, case, &case.starts, facts, part)
}
