// What a line of a picture shows, and what is read from one.
use phases::Phase;

// What stands on the bus at the moment that a line shows. Where something isn't driven its number says nothing.
#[derive(Clone, Copy)]
pub struct Moment {
    // The true signals, as an answer weighs them.
    pub signals: u8,
    // What the priority lines show.
    pub lines: u8,
    // The true control outputs.
    pub control: u8,
    pub status: u8,
    pub address: u32,
    // The byte on the DO lines, and that on the DI lines.
    pub dout: u8,
    pub din: u8,
    // A cycle is on: address and status are driven. Whether DO is driven, and whether DI is.
    // Kept: definitions name these flags, `BusLine.is_driven`, `Moments.moment_of`, and the theorem `AddressOnPins`.
    pub cyclic: bool,
    pub doutDriven: bool,
    pub dinDriven: bool,
}

// What the pins of a picture tell.
#[derive(Clone, Copy, PartialEq, Eq)]
pub struct Seen {
    // None where no phase has the signals.
    pub phase: Option<Phase>,
    pub signals: u8,
    pub lines: u8,
}
