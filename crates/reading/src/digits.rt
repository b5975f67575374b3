// Hexadecimal digits, and lines of them.
ghost use Rattle.std.specs.Prelude.{true, not, ◌≡◌, ◌+◌, ◌<◌, ◌≤◌, get_or, IfOk, IfErr};
ghost use Rattle.std.specs.List.{position};
ghost use Rattle.text.specs.Digits.{is_digit, is_digits, value_of, number_of};
ghost use Rattle.text.specs.Faults.{leading_digits, fault_of};
ghost use Rattle.text.specs.Frames.{digits_from};
ghost use Rattle.text.specs.Told.{fault_told};
ghost use Rattle.text.specs.declared.fault.Fault.TheVariants.{WrongCharacter};

use text::Fault;

// From the byte 0 on to the byte F, a one for each that is a digit.
const DIGITS: u32 = 0x7E03FF;

// Kept: a bit for each byte, since with a range for each kind of digit s100_pins took 7 to 39 % more instructions.
#[tactic(auto, using(text::proofs::DigitLaws::digit_bit))]
fn is_digit(b: u8) -> bool
    ensures { result ≡ is_digit b }
{
    matches!(b, b'0'..=b'F') && (DIGITS >> (b - b'0')) % 2 == 1
}

// Without a branch on the kind of digit: which of the two comes next can't be foreseen. A letter's low half is 9 short of its value.
fn value(b: u8) -> u8
    requires { is_digit b ≡ true }
    ensures { result ≡ value_of b }
{
    b % 16 + b / 64 * 9
}

// Where the first byte stands that is no digit.
fn first_wrong(line: &[u8]) -> Option<usize>
    ensures { result ≡ position (λ b. not (is_digit b)) line.now }
{
    line.iter().position(|b| !is_digit(*b))
}

// The character behind so many digits is wrong.
pub fn wrong_behind(leading: usize) -> Fault
    requires { leading < 0xFF }
    ensures { result ≡ WrongCharacter (leading + 1) }
{
    Fault::WrongCharacter {
        column: leading as u8 + 1,
    }
}

// A line of so many digits.
#[derive(Clone, Copy)]
pub struct Digits<'a, const N: usize> {
    line: &'a [u8; N],
    ghost right: { is_digits N line.now ≡ true },
}

impl<'a, const N: usize> Digits<'a, N> {
    // Where a byte is no digit, how many digits come before it.
    pub fn of(line: &'a [u8; N]) -> Result<Self, usize>
        ensures ok { IfOk result (λ digits. digits.line.now ≡ line.now) }
        ensures err { IfErr result (λ leading. (leading ≡ leading_digits line.now) × (leading < N)) }
    {
        match first_wrong(line) {
            None => Ok(Digits { line }),
            Some(leading) => Err(leading),
        }
    }

    pub fn read(line: &'a [u8]) -> Result<Self, Fault>
        requires { N < 0x100 }
        ensures ok { IfOk result (λ digits. digits.line.now ≡ line.now) }
        ensures err { IfErr result (λ found. fault_told found ≡ fault_of N line.now) }
    {
        let Ok(line) = line.try_into() else {
            return Err(Fault::WrongLength);
        };
        Digits::of(line).map_err(wrong_behind)
    }

    pub fn value(self, at: usize) -> u8
        requires { at < N }
        ensures is { result ≡ value_of (get_or self.entry.line.now at 0) }
        ensures small { result < 16 }
    {
        value(self.line[at])
    }

    // The number in two digits from a place on.
    pub fn two(self, at: usize) -> u8
        requires { at + 2 ≤ N }
        ensures { result ≡ number_of (digits_from at 2 self.entry.line.now) }
    {
        self.value(at) * 16 + self.value(at + 1)
    }

    pub fn four(self, at: usize) -> u16
        requires { at + 4 ≤ N }
        ensures { result ≡ number_of (digits_from at 4 self.entry.line.now) }
    {
        u16::from_be_bytes([self.two(at), self.two(at + 2)])
    }
}
