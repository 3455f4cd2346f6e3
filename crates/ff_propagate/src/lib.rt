//! Facts that constraints force from givens, and the parts that are left undecided.
#![tactic(auto)]

mod closing;
mod facts;
mod following;
mod giving;
mod laws;
mod levels;
mod parts;
mod telling;
mod trail;
mod uses;
mod words;

pub use closing::{close, givens_fit};
pub use facts::{ClashAt, Closed, Fact, Facts, Reason};
pub use giving::give;
pub use laws::{
    assignments_hold_the_closure, contradictions_clash, dead_facts_clash, facts_are_in_the_closure,
    further_facts_keep_the_rule, quiet_facts_are_the_closure,
};
pub use parts::Part;
pub use trail::{Step, Trail};
pub use uses::Uses;
pub use words::{Held, read_word, write_word};
