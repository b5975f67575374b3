// The bus as a value: its state, and what each method does to it.
#![tactic(auto)]

pub mod numbers;
mod priority;
mod refusal;
mod settle;
mod state;
mod step;
mod steps;

pub use refusal::{Refusal, Refused};
pub use settle::Settled;
pub use state::{Bus, Chassis, EMPTY_CHASSIS};
pub use step::Step;
