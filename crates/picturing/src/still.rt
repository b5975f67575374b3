// A picture with no cycle on: address, status and data are neither driven nor high, and most digits are always the same.
ghost use Rattle.std.specs.Prelude.{false, ◌++◌, ◌≡◌};
ghost use Rattle.pins.specs.Picture.{picture_of, driven_of};
ghost use Rattle.pins.specs.declared.moments.Moment.{Moment};
ghost use Rattle.picturing.specs.Fives.{five_levels};

use crate::pin_digits::*;
use phases::numbers::*;
use pins::Moment;
use pins::sizes::PICTURE_DIGITS;
use tables::mwrt;

pub fn put_still(m: Moment, digits: &mut [u8; PICTURE_DIGITS])
    requires cyclic_value { m.cyclic ≡ false }
    requires dout_driven_value { m.doutDriven ≡ false }
    requires din_driven_value { m.dinDriven ≡ false }
    ensures { digits.new ≡ picture_of m }
{
    let (ten, rest) = digits.split_first_chunk_mut().unwrap();
    put_still_1(m, ten);
    let (ten, rest) = rest.split_first_chunk_mut().unwrap();
    put_still_41(m, ten);
    put_still_rest(rest.as_mut_array().unwrap());
}

// DMA3 and the disable lines, pSTVAL and pHLDA, among pins 1 to 40.
fn put_still_1(m: Moment, ten: &mut [u8; 10])
    requires cyclic_value { m.cyclic ≡ false }
    requires dout_driven_value { m.doutDriven ≡ false }
    ensures { ten.new ≡ five_levels 0 m ++ five_levels 5 m }
{
    let dma = u32::from(m.lines);
    ten[0] = b'0';
    ten[1] = b'0';
    ten[2] = b'0';
    ten[3] = pin_digit(false, !bit_at(dma, 3), false, false);
    ten[4] = pin_digit(
        false,
        !is_on(SDSB, m.signals),
        !is_on(CDSB, m.signals),
        false,
    );
    ten[5] = pin_digit(
        false,
        !is_on(ADSB, m.signals),
        !is_on(DODSB, m.signals),
        false,
    );
    ten[6] = pin_digit(
        !is_on(P_STVAL, m.control),
        is_on(P_HLDA, m.control),
        false,
        false,
    );
    ten[7] = b'0';
    ten[8] = b'0';
    ten[9] = b'0';
}

// The other priority lines, SIXTN, MWRT, HOLD and the other control outputs, among pins 41 to 80.
fn put_still_41(m: Moment, ten: &mut [u8; 10])
    requires cyclic_value { m.cyclic ≡ false }
    requires din_driven_value { m.dinDriven ≡ false }
    ensures { ten.new ≡ five_levels 10 m ++ five_levels 15 m }
{
    let dma = u32::from(m.lines);
    ten[0] = b'0';
    ten[1] = b'0';
    ten[2] = b'0';
    ten[3] = pin_digit(false, false, !bit_at(dma, 0), !bit_at(dma, 1));
    ten[4] = pin_digit(!bit_at(dma, 2), false, false, !is_on(SIXTN, m.signals));
    ten[5] = b'0';
    ten[6] = pin_digit(false, false, false, mwrt(m.control, m.status));
    ten[7] = b'0';
    ten[8] = pin_digit(
        false,
        !is_on(HOLD, m.signals),
        false,
        is_on(P_SYNC, m.control),
    );
    ten[9] = pin_digit(
        !is_on(P_WR, m.control),
        is_on(P_DBIN, m.control),
        false,
        false,
    );
}

// Pins 81 to 100, and which of the hundred are driven.
fn put_still_rest(rest: &mut [u8; 30])
    ensures { (m : Moment) → m.cyclic ≡ false → m.doutDriven ≡ false → m.dinDriven ≡ false
        → rest.new ≡ five_levels 20 m ++ driven_of m }
{
    // Kept: thirty stores and no `copy_from_slice` of thirty digits, since digits are not copied.
    rest[0] = b'0';
    rest[1] = b'0';
    rest[2] = b'0';
    rest[3] = b'0';
    rest[4] = b'0';
    rest[5] = b'0';
    rest[6] = b'0';
    rest[7] = b'0';
    rest[8] = b'4';
    rest[9] = b'6';
    rest[10] = b'6';
    rest[11] = b'C';
    rest[12] = b'0';
    rest[13] = b'0';
    rest[14] = b'0';
    rest[15] = b'0';
    rest[16] = b'0';
    rest[17] = b'0';
    rest[18] = b'3';
    rest[19] = b'9';
    rest[20] = b'0';
    rest[21] = b'1';
    rest[22] = b'0';
    rest[23] = b'5';
    rest[24] = b'C';
    rest[25] = b'0';
    rest[26] = b'0';
    rest[27] = b'0';
    rest[28] = b'0';
    rest[29] = b'0';
}
