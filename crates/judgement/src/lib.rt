// The event. The verdict on it, a refusal or the step that it takes, is a definition in specs/.
#![tactic(auto)]

mod event;

pub use event::{Event, PERMANENT_MASTER};
