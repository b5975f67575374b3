// The levels of the hundred pins at one moment, twenty pins to a function, four to a digit (003, Appendix B).
ghost use Rattle.std.specs.Prelude.{◌≡◌};
ghost use Rattle.pins.specs.Picture.{levels_of};
ghost use Rattle.picturing.specs.Fives.{five_shown};

use crate::moments::Quiet;
use crate::pin_digits::*;
use phases::numbers::*;
use pins::Moment;
use pins::sizes::LEVEL_DIGITS;
use tables::mwrt;

pub fn put_levels(quiet: Quiet, levels: &mut [u8; LEVEL_DIGITS])
    ensures { levels.new ≡ levels_of quiet.moment }
{
    let m = quiet.moment;
    let (five, rest) = levels.split_first_chunk_mut().unwrap();
    put_levels_1(m, five);
    let (five, rest) = rest.split_first_chunk_mut().unwrap();
    put_levels_21(m, five);
    let (five, rest) = rest.split_first_chunk_mut().unwrap();
    put_levels_41(m, five);
    let (five, rest) = rest.split_first_chunk_mut().unwrap();
    put_levels_61(m, five);
    put_levels_81(m, rest.as_mut_array().unwrap());
}

// Pins 1 to 20.
fn put_levels_1(m: Moment, five: &mut [u8; 5])
    ensures { five.new ≡ five_shown 0 m }
{
    let a = m.address;
    let dma = u32::from(m.lines);
    five[0] = b'0';
    five[1] = b'0';
    five[2] = b'0';
    five[3] = pin_digit(false, !bit_at(dma, 3), bit_at(a, 18), bit_at(a, 16));
    five[4] = pin_digit(
        bit_at(a, 17),
        !is_on(SDSB, m.signals),
        !is_on(CDSB, m.signals),
        false,
    );
}

// Pins 21 to 40.
fn put_levels_21(m: Moment, five: &mut [u8; 5])
    ensures { five.new ≡ five_shown 5 m }
{
    let a = m.address;
    let dout = u32::from(m.dout);
    five[0] = pin_digit(
        false,
        !is_on(ADSB, m.signals),
        !is_on(DODSB, m.signals),
        false,
    );
    five[1] = pin_digit(
        !is_on(P_STVAL, m.control),
        is_on(P_HLDA, m.control),
        false,
        false,
    );
    five[2] = pin_digit(bit_at(a, 5), bit_at(a, 4), bit_at(a, 3), bit_at(a, 15));
    five[3] = pin_digit(
        bit_at(a, 12),
        bit_at(a, 9),
        bit_at(dout, 1),
        bit_at(dout, 0),
    );
    five[4] = pin_digit(
        bit_at(a, 10),
        bit_at(dout, 4),
        bit_at(dout, 5),
        bit_at(dout, 6),
    );
}

// Pins 41 to 60.
fn put_levels_41(m: Moment, five: &mut [u8; 5])
    ensures { five.new ≡ five_shown 10 m }
{
    let cyclic = m.cyclic;
    let status = m.status;
    let din = u32::from(m.din);
    let dma = u32::from(m.lines);
    five[0] = pin_digit(
        bit_at(din, 2),
        bit_at(din, 3),
        bit_at(din, 7),
        cyclic & is_on(S_M1, status),
    );
    five[1] = pin_digit(
        cyclic & is_on(S_OUT, status),
        cyclic & is_on(S_INP, status),
        cyclic & is_on(S_MEMR, status),
        false,
    );
    five[2] = b'0';
    five[3] = pin_digit(false, false, !bit_at(dma, 0), !bit_at(dma, 1));
    five[4] = pin_digit(
        !bit_at(dma, 2),
        cyclic & !is_on(S_XTRQ, m.signals),
        bit_at(m.address, 19),
        !is_on(SIXTN, m.signals),
    );
}

// Pins 61 to 80.
fn put_levels_61(m: Moment, five: &mut [u8; 5])
    ensures { five.new ≡ five_shown 15 m }
{
    let a = m.address;
    five[0] = pin_digit(bit_at(a, 20), bit_at(a, 21), bit_at(a, 22), bit_at(a, 23));
    five[1] = pin_digit(false, false, false, mwrt(m.control, m.status));
    five[2] = b'0';
    five[3] = pin_digit(
        false,
        !is_on(HOLD, m.signals),
        false,
        is_on(P_SYNC, m.control),
    );
    five[4] = pin_digit(
        !is_on(P_WR, m.control),
        is_on(P_DBIN, m.control),
        bit_at(a, 0),
        bit_at(a, 1),
    );
}

// Pins 81 to 100.
fn put_levels_81(m: Moment, five: &mut [u8; 5])
    ensures { five.new ≡ five_shown 20 m }
{
    let a = m.address;
    let dout = u32::from(m.dout);
    let din = u32::from(m.din);
    five[0] = pin_digit(bit_at(a, 2), bit_at(a, 6), bit_at(a, 7), bit_at(a, 8));
    five[1] = pin_digit(bit_at(a, 13), bit_at(a, 14), bit_at(a, 11), bit_at(dout, 2));
    five[2] = pin_digit(
        bit_at(dout, 3),
        bit_at(dout, 7),
        bit_at(din, 4),
        bit_at(din, 5),
    );
    five[3] = pin_digit(bit_at(din, 6), bit_at(din, 1), bit_at(din, 0), false);
    five[4] = pin_digit(m.cyclic & !is_on(S_WO, m.status), false, false, false);
}
