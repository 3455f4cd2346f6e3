//! Laws of answers: each pattern is refused or has a case, and each case has a report. Below them, that each folded sheet
//! has the lists that its case is made of, and that each system of constraints comes to a clash or to parts.
#![tactic(auto)]

mod ends;
mod laws;
mod layers;

pub use ends::each_system_ends;
pub use laws::{cases_have_reports, folded_patterns_come, patterns_come, patterns_fold};
pub use layers::{some_cells, some_constraints, some_pairs};
