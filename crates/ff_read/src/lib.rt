//! From bytes to a crease pattern, and to the inputs of `check` and `bench`, by serde_json's reading of FOLD 1.1.
#![tactic(auto)]

mod benches;
mod checks;
mod edges;
mod items;
mod keys;
mod laws;
mod objects;
mod patterns;

pub use benches::{BenchInput, MOST_COMMANDS, MOST_VIEWERS, read_bench};
pub use checks::{CheckInput, MOST_PINS, read_check};
pub use items::{FromJson, ItemNo, all_of};
pub use keys::{fold_keys, items_of};
pub use laws::{bench_is_one, check_is_one, reading_is_one};
pub use objects::read_object;
pub use patterns::{fold_items, read_fold};
