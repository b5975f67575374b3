// The answer line and the outcome lines, written.
#![tactic(auto)]

mod outcomes;
mod printing;

pub use outcomes::put_outcomes;
pub use printing::{digit, put_answer};
