// What is judged of an event before anything is done: its fields, its phase, its speaker, the lines and the address.
#![tactic(auto)]

mod columns;
mod reasons;
mod rules;
mod turns;

pub use reasons::page_at;
pub use turns::judge;
