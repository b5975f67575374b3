// What byte and word cycles move, on a memory of any length, and what answers them.
#![tactic(auto)]

ghost use Rattle.std.specs.Prelude.{◌≡◌, ◌<◌};

// What a cycle event moved: the datum, and how many bus cycles that took. Where nothing was moved, there is no such value.
#[derive(Clone, Copy, PartialEq, Eq)]
pub struct Moved {
    pub datum: u16,
    pub cycles: u8,
    ghost took_cycles: { 0 < cycles },
}

impl Moved {
    ghost use Rattle.memory.specs.Cycles.{in_one_cycle};
    ghost use Rattle.memory.specs.Promises.{in_word_cycles};
    ghost use Rattle.memory.specs.Told.{told};

    // One bus cycle moved this datum.
    pub fn in_one_cycle(datum: u16) -> Moved
        ensures { told result ≡ in_one_cycle datum }
    {
        Moved { datum, cycles: 1 }
    }

    // This word was moved: in one cycle over the ganged buses where the slave asserts SIXTN, and else in two byte cycles (000, 2.6.3, 2.6.5).
    pub fn in_word_cycles(datum: u16, slave: Slave) -> Moved
        ensures { told result ≡ in_word_cycles slave datum }
    {
        let cycles = if slave.asserts_sixtn() { 1 } else { 2 };
        Moved { datum, cycles }
    }
}

// Page codes (01, "State and phases").
pub const EIGHT_BIT_PAGE: u8 = 1;

pub const SIXTEEN_BIT_PAGE: u8 = 2;

// What answers a cycle: the page that its address lies in, by its code.
// Kept: a code and no enum, since a state's page may have any number, and the promises of word cycles (`WordMoves`) hold for any.
#[derive(Clone, Copy, PartialEq, Eq)]
pub struct Slave {
    pub code: u8,
}

impl Slave {
    ghost use Rattle.memory.specs.Slave.{asserts_sixtn};

    // A page of sixteen bits asserts SIXTN.
    pub fn asserts_sixtn(self) -> bool
        ensures { result ≡ asserts_sixtn self }
    {
        self.code == SIXTEEN_BIT_PAGE
    }
}
