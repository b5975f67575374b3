// Pictures of the pins: what stands on the bus at one moment, what is read from a picture, and how long its lines are.
#![tactic(auto)]

mod moments;
pub mod sizes;

pub use moments::{Moment, Seen};
