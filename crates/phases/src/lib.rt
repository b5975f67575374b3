// The phases, the kinds of events and who drives the lines, by name, and what stands on them, by weight.
#![tactic(auto)]

mod drivers;
mod kinds;
pub mod numbers;
mod phases;

pub use drivers::Driver;
pub use kinds::{Kind, UnknownKind};
pub use phases::{Phase, UnknownPhase};
