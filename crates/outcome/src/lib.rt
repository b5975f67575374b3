// What an arbitration means for one card: that it wins, or why it loses.
#![tactic(auto)]

mod asking;
mod figures;

pub use asking::outcome_for;
pub use figures::{Figures, Loss, NO_LINE, Outcome};
