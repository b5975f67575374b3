// Four pins as a digit, and whether a line is true.
ghost use Rattle.std.specs.Prelude.{◌≡◌, ◌<◌};
ghost use Rattle.words.specs.Bits.{bit_at};
ghost use Rattle.phases.specs.Signal.{is_on};
ghost use Rattle.text.specs.Digits.{digit_of};
ghost use Rattle.pins.specs.Picture.{four_bits};

use printing::digit;

pub fn pin_digit(a: bool, b: bool, c: bool, d: bool) -> u8
    ensures { result ≡ digit_of (four_bits a b c d) }
{
    digit(u8::from(a) * 8 + u8::from(b) * 4 + u8::from(c) * 2 + u8::from(d))
}

// The line of that number in an address or a byte.
pub fn bit_at(lines: u32, n: u32) -> bool
    requires { n < 32 }
    ensures { result ≡ bit_at lines n }
{
    (lines >> n) % 2 == 1
}

// The line of that weight in a byte.
pub fn is_on(weight: u8, byte: u8) -> bool
    requires { 0 < weight }
    ensures { result ≡ is_on weight byte }
{
    (byte / weight) % 2 == 1
}
