// A run of the program: its stages, what each line is answered and where it leads, and what a call that is given text tells.
#![tactic(auto)]

mod calls;
mod state;

pub use calls::{Fed, TakenLines};
pub use state::{Session, Stage, WANTS_ANSWERS, WANTS_OUTCOMES, WANTS_PICTURES, Wanted};
