// Where the newline stands on the outcome line, behind four numbers of two digits, and how long the lines of the sixteen cards are.
pub const NEWLINE_AT: usize = 4 * 2;

pub const OUTCOME_LENGTH: usize = NEWLINE_AT + 1;

pub const OUTCOMES_LENGTH: usize = 16 * OUTCOME_LENGTH;
