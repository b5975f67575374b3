// Lines of text, read.
#![tactic(auto)]

mod digits;
mod line_reading;
mod picture_reading;

pub use line_reading::{line_end, newline_at, next_line, setup_line};
pub use picture_reading::picture_line;
