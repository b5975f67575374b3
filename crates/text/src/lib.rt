// Text as bytes: the setup line, the event line, the answer line and the outcome line.
#![tactic(auto)]

pub mod answer_line;
mod fault;
pub mod frames;
pub mod outcome_line;

pub use answer_line::ANSWER_LENGTH;
pub use fault::Fault;
pub use frames::{BadLine, EVENT_DIGITS, LONGEST, NEWLINE, SETUP_DIGITS};
pub use outcome_line::OUTCOMES_LENGTH;
