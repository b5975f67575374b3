// The state of the bus, and what it is set up with.
ghost use Rattle.std.specs.Prelude.{◌≡◌, eqb};
ghost use Rattle.phases.specs.Phases.{number_of_phase};
ghost use Rattle.bus.specs.State.{chassis_of};

use phases::Phase;

// What setup is given. No event changes it.
#[derive(Clone, Copy)]
pub struct Chassis {
    // The fitted cards: bit n for card n.
    pub fitted: u16,
    // Page p is the 4,096 bytes from 1000h times p on: 0 for no memory there, 1 and 2 for memory of eight and of sixteen bits.
    pub pages: [u8; 16],
}

// Nothing fitted, no memory on any page.
pub const EMPTY_CHASSIS: Chassis = Chassis {
    fitted: 0,
    pages: [0; 16],
};

// The chassis' parts, and then what the events change. Methods take it by value and hand the next one back.
#[derive(Clone, Copy)]
pub struct Bus {
    pub fitted: u16,
    pub pages: [u8; 16],
    // Kept: a number, since a state may have any here, and one that no phase has is told apart as senseless (`makes_sense`).
    pub phase: u8,
    // The contenders: bit n for card n.
    pub contenders: u16,
    // Each card's level on the priority lines.
    pub driven: [u8; 16],
    // The card to which the bus was granted, or FF.
    pub granted: u8,
}

impl Bus {
    pub fn chassis(self) -> Chassis
        ensures { result ≡ chassis_of self }
    {
        let Bus { fitted, pages, .. } = self;
        Chassis { fitted, pages }
    }

    pub fn is_in(self, phase: Phase) -> bool
        ensures { result ≡ eqb self.phase (number_of_phase phase) }
    {
        self.phase == u8::from(phase)
    }
}
