// The event: what a card or the permanent master does on the bus.

// The permanent master as a speaker.
pub const PERMANENT_MASTER: u8 = 0x10;

#[derive(Clone, Copy)]
pub struct Event {
    // Kept: an event may have any numbers, and those that no kind, speaker or place has are refused (`sound_verdict`).
    pub kind: u8,
    // A card, or the permanent master.
    pub speaker: u8,
    // 24 bits; whatever is beyond the memory is refused with 0A.
    pub address: u32,
    pub datum: u16,
}
