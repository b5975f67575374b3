// A run of the program in calls, each with a piece of the text.
#![tactic(auto)]

mod closing;
mod feeding;
mod holding;
mod saying;
mod setting;
mod taking;

pub use feeding::{feed, finish};
pub use setting::fresh;
pub use taking::has_room;
