// What is answered to an event.
use bus::Bus;

// The parts of 01's answer line, in its order.
#[derive(Clone, Copy, Default)]
pub struct Answer {
    // 0 where the event was accepted.
    // Kept: a number, since an answer also stands in bytes that C lends (`s100_c`), where it may be any.
    pub refusal: u8,
    pub phase: u8,
    pub granted: u8,
    pub lines: u8,
    pub signals: u8,
    pub status: u8,
    pub cycles: u8,
    pub datum: u16,
}

// The state after an event, and what is answered to it.
#[derive(Clone, Copy)]
pub struct Stepped {
    pub bus: Bus,
    pub answer: Answer,
}
