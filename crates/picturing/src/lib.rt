// The lines of a picture, written.
#![tactic(auto)]

mod driven;
mod levels;
mod moments;
mod pictures;
mod pin_digits;
mod still;

pub use pictures::put_pictures;
