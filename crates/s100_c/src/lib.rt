// The model for programs in other languages: setup, step, settle, outcomes, pictures and the fields of a state, on numbers and lent bytes. include/s100.h says
// what a caller has to know.
#![tactic(auto)]

mod answer_layout;
mod calls;
mod fields;
mod layout;
mod outcomes;
mod pictures;
