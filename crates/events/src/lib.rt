// What is answered to an event on a bus with its memory and its ports: specs/ has the step, proofs/ what is promised of it. The step's code is in
// `stepping`.
#![tactic(auto)]

mod answers;

pub use answers::{Answer, Stepped};
