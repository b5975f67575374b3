// Events on a bus with its memory and its ports: each is judged, and either refused or its step taken.
#![tactic(auto)]

mod answering;
mod cycles;
mod steps;

pub use answering::{answer_with, bare_with};
pub use steps::{sound_step, step};
