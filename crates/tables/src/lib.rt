// What stands on the lines in each phase and in each kind of cycle, from constant tables.
#![tactic(auto)]

mod tables;

pub use tables::{control, driver, mwrt, signals, status};
