//! What a board is opened with.
ghost use Rattle.std.specs.Prelude.{◌≡◌, ◌+◌, ◌<◌, ◌≤◌, length};
ghost use Rattle.std.specs.Arc.{arc_value};
ghost use Rattle.ff_board.specs.Standing.{top_level, GivensStand};

use ff_propagate::Facts;
use ff_tables::{Given, Items};
use ff_types::Case;
use std::snapshot::Snapshot;
use std::sync::Arc;

/// The case of an epoch, its givens, and the facts with which its board is opened.
#[derive(Drop)]
pub struct Opening {
    pub case: Arc<Case>,
    pub givens: Items<Given>,
    pub facts: Facts,
    ghost wide: { length facts ≡ (arc_value case).system.vars },
    ghost stand: { GivensStand givens facts },
    ghost few: { length (arc_value case).system.constraints ≤ 4194304 },
    ghost low: { top_level facts + (arc_value case).system.vars + 2 < 1073741824 },
}

/// What a board's rule is told of its opening.
pub(crate) type Key = Snapshot<Opening>;
