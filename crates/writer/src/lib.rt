// Tapes written: the canonical tape of a table, and the screen's answer. Inner functions: they may require a
// table within the capacity.

#![tactic(auto)]

pub mod screen;
pub mod write;
