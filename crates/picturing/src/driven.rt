// Which of the hundred pins are driven at one moment, twenty pins to a function, four to a digit (02, CR 1).
ghost use Rattle.std.specs.Prelude.{◌≡◌};
ghost use Rattle.pins.specs.Picture.{driven_of};
ghost use Rattle.picturing.specs.Fives.{five_driven};

use crate::pin_digits::pin_digit;
use pins::Moment;
use pins::sizes::LEVEL_DIGITS;

pub fn put_driven(m: Moment, driven: &mut [u8; LEVEL_DIGITS])
    ensures { driven.new ≡ driven_of m }
{
    let (five, rest) = driven.split_first_chunk_mut().unwrap();
    put_driven_1(m, five);
    let (five, rest) = rest.split_first_chunk_mut().unwrap();
    put_driven_21(m, five);
    let (five, rest) = rest.split_first_chunk_mut().unwrap();
    put_driven_41(m, five);
    let (five, rest) = rest.split_first_chunk_mut().unwrap();
    put_driven_61(m, five);
    put_driven_81(m, rest.as_mut_array().unwrap());
}

fn put_driven_1(m: Moment, five: &mut [u8; 5])
    ensures { five.new ≡ five_driven 0 m }
{
    let cyclic = m.cyclic;
    five[0] = b'0';
    five[1] = b'0';
    five[2] = b'0';
    five[3] = pin_digit(false, true, cyclic, cyclic);
    five[4] = pin_digit(cyclic, true, true, false);
}

fn put_driven_21(m: Moment, five: &mut [u8; 5])
    ensures { five.new ≡ five_driven 5 m }
{
    let cyclic = m.cyclic;
    let out = m.doutDriven;
    five[0] = b'6';
    five[1] = b'C';
    five[2] = pin_digit(cyclic, cyclic, cyclic, cyclic);
    five[3] = pin_digit(cyclic, cyclic, out, out);
    five[4] = pin_digit(cyclic, out, out, out);
}

fn put_driven_41(m: Moment, five: &mut [u8; 5])
    ensures { five.new ≡ five_driven 10 m }
{
    let cyclic = m.cyclic;
    let into = m.dinDriven;
    five[0] = pin_digit(into, into, into, cyclic);
    five[1] = pin_digit(cyclic, cyclic, cyclic, false);
    five[2] = b'0';
    five[3] = b'3';
    five[4] = pin_digit(true, cyclic, cyclic, true);
}

fn put_driven_61(m: Moment, five: &mut [u8; 5])
    ensures { five.new ≡ five_driven 15 m }
{
    let cyclic = m.cyclic;
    five[0] = pin_digit(cyclic, cyclic, cyclic, cyclic);
    five[1] = b'1';
    five[2] = b'0';
    five[3] = b'5';
    five[4] = pin_digit(true, true, cyclic, cyclic);
}

fn put_driven_81(m: Moment, five: &mut [u8; 5])
    ensures { five.new ≡ five_driven 20 m }
{
    let cyclic = m.cyclic;
    let out = m.doutDriven;
    let into = m.dinDriven;
    five[0] = pin_digit(cyclic, cyclic, cyclic, cyclic);
    five[1] = pin_digit(cyclic, cyclic, cyclic, out);
    five[2] = pin_digit(out, out, into, into);
    five[3] = pin_digit(into, into, into, false);
    five[4] = pin_digit(cyclic, false, false, false);
}
