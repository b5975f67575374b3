// What settle comes to.
use crate::state::Bus;

// The settled state, and how many looks that took.
#[derive(Clone, Copy)]
pub struct Settled {
    pub bus: Bus,
    pub looks: usize,
}
