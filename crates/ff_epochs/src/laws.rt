//! What published epochs say of stackings.
ghost use Rattle.ff_epochs.specs.EpochLaws.{BoardsAreClosures, BoardsAreStackings, ImpossibleEpochsHaveNone};

use ff_parts::parts_factor;
use ff_solve::stackings_are_choices;

/// A law of legal journals: each published board is exactly the closure of its epoch's creases and pins, and choices of one solution of
/// each of its parts correspond one-to-one to the geometric stackings that keep them. Where an epoch is impossible there is no such
/// stacking, and its log is accepted for its pins.
pub fn epochs_are_stackings()
    ensures closures { BoardsAreClosures }
    ensures stackings { BoardsAreStackings }
    ensures none { ImpossibleEpochsHaveNone }
{
    parts_factor();
    stackings_are_choices();
}
