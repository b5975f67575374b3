// Where each field begins on the answer line, and the newline behind the last.
pub const REFUSAL_AT: usize = 0;

pub const PHASE_AT: usize = REFUSAL_AT + 2;

pub const GRANTED_AT: usize = PHASE_AT + 2;

pub const LINES_AT: usize = GRANTED_AT + 2;

pub const SIGNALS_AT: usize = LINES_AT + 2;

pub const STATUS_AT: usize = SIGNALS_AT + 2;

pub const CYCLES_AT: usize = STATUS_AT + 2;

pub const DATUM_AT: usize = CYCLES_AT + 2;

pub const NEWLINE_AT: usize = DATUM_AT + 4;

pub const ANSWER_LENGTH: usize = NEWLINE_AT + 1;
