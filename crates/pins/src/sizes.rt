// The lengths of a picture.

// The digits of the levels, and as many of which pins are driven.
pub const LEVEL_DIGITS: usize = 25;

pub const DRIVEN_AT: usize = LEVEL_DIGITS;

pub const PICTURE_DIGITS: usize = DRIVEN_AT + LEVEL_DIGITS;

// A line with its newline.
pub const PICTURE_LENGTH: usize = PICTURE_DIGITS + 1;

// A split word has two lines, and no event more.
pub const MOST_PICTURED: usize = PICTURE_LENGTH + PICTURE_LENGTH;
