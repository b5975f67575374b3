// The last phase, the last kind of event, and the weights of signals, status and control outputs, as constants; specs/ has a definition for each.
use crate::{Kind, Phase};

pub const LAST_PHASE: u8 = Phase::TransferTwo as u8;

pub const LAST_KIND: u8 = Kind::Reset as u8;

// Signals that go by the phase.
pub const HOLD: u8 = 0x01;

pub const P_HLDA: u8 = 0x02;

pub const ADSB: u8 = 0x04;

pub const SDSB: u8 = 0x08;

pub const DODSB: u8 = 0x10;

pub const CDSB: u8 = 0x20;

// Signals of a word's cycle.
pub const SIXTN: u8 = 0x40;

pub const S_XTRQ: u8 = 0x80;

// Status.
pub const S_MEMR: u8 = 0x01;

pub const S_M1: u8 = 0x02;

pub const S_INP: u8 = 0x04;

pub const S_OUT: u8 = 0x08;

pub const S_WO: u8 = 0x10;

// Control outputs, in a byte of their own, where pHLDA keeps its weight.
pub const P_SYNC: u8 = 0x01;

pub const P_STVAL: u8 = 0x04;

pub const P_DBIN: u8 = 0x08;

pub const P_WR: u8 = 0x10;
