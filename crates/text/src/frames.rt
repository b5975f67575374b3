// The two kinds of line that are read: where each field begins on them, and what is told of a line that is no event's.
pub use crate::fault::Fault;

// The byte that ends a line.
pub const NEWLINE: u8 = b'\n';

// The event line, and its digits.
pub const KIND_AT: usize = 0;

pub const SPEAKER_AT: usize = KIND_AT + 2;

pub const ADDRESS_AT: usize = SPEAKER_AT + 2;

pub const DATUM_AT: usize = ADDRESS_AT + 6;

pub const EVENT_DIGITS: usize = DATUM_AT + 4;

// The setup line, and its digits.
pub const FITTED_AT: usize = 0;

pub const PAGES_AT: usize = FITTED_AT + 4;

pub const SETUP_DIGITS: usize = PAGES_AT + 16;

// No right line is longer.
pub const LONGEST: usize = SETUP_DIGITS;

// A line that is no event's: its bytes, and what is wrong with it.
#[derive(Clone, Copy, PartialEq, Eq)]
pub struct BadLine {
    pub size: usize,
    pub fault: Fault,
}
