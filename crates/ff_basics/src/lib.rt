//! Lemmas on numbers, truth values, options and lists that the standard library lacks. It has no code.
#![tactic(auto)]
