// What stands on the bus at each moment that an accepted event's picture shows; an address or a byte that nobody drives counts as 0.
ghost use Rattle.std.specs.Prelude.{◌≡◌, ◌||◌, unwrap_or, is_some};
ghost use Rattle.memory.specs.Halves.{even_half, odd_half};
ghost use Rattle.phases.specs.Kinds.{number_of_kind};
ghost use Rattle.pins.specs.Moments.{moment_of, idle_moment, byte_moment, word_moment, even_moment, odd_moment, odd_of_pair, without_request};
ghost use Rattle.picturing.specs.Fives.{quieted};

use events::Answer;
use judgement::Event;
use phases::Kind;
use phases::numbers::S_XTRQ;
use pins::Moment;
use tables::control;

// A moment as it is written: 0 for the address and the bytes that nobody drives, and nobody drives a byte outside a cycle.
#[derive(Clone, Copy)]
pub struct Quiet {
    pub moment: Moment,
    ghost undriven_counts_nothing: { moment ≡ quieted moment },
    ghost driven_in_cycles: { moment.cyclic ≡ (moment.doutDriven || moment.dinDriven) },
}

// An accepted event that is a cycle.
#[derive(Clone, Copy)]
pub struct Cycle {
    pub kind: Kind,
    pub event: Event,
    pub answer: Answer,
    ghost named: { event.kind ≡ number_of_kind kind },
}

impl Cycle {
    // A byte, in one cycle.
    pub fn byte(self) -> Quiet
        ensures { result.moment ≡ quieted (byte_moment self.event self.answer self.answer.signals self.event.address (odd_half self.answer.datum)) }
    {
        let byte = odd_half(self.answer.datum);
        self.byte_at(self.event.address, self.answer.signals, byte)
    }

    // A word in one cycle, the even byte on DO and the odd one on DI.
    pub fn word(self) -> Quiet
        ensures { result.moment ≡ quieted (word_moment self.event self.answer) }
    {
        let even = even_half(self.answer.datum);
        let odd = odd_half(self.answer.datum);
        moment(
            self.event,
            self.answer,
            self.answer.signals,
            self.event.address,
            Some(even),
            Some(odd),
        )
    }

    // The first of a split word's two.
    pub fn even(self) -> Quiet
        ensures { result.moment ≡ quieted (even_moment self.event self.answer) }
    {
        let even = even_half(self.answer.datum);
        self.byte_at(self.event.address, self.answer.signals, even)
    }

    // And the second, which no longer asks for a word.
    pub fn odd(self) -> Quiet
        ensures { result.moment ≡ quieted (odd_moment self.event self.answer) }
    {
        let signals = without_request(self.answer.signals);
        let odd = odd_half(self.answer.datum);
        self.byte_at(odd_of_pair(self.event.address), signals, odd)
    }

    fn byte_at(self, address: u32, signals: u8, byte: u8) -> Quiet
        ensures { result.moment ≡ quieted (byte_moment self.event self.answer signals address byte) }
    {
        moment(
            self.event,
            self.answer,
            signals,
            address,
            self.kind.is_writing().then_some(byte),
            self.kind.is_reading().then_some(byte),
        )
    }
}

pub fn idle_moment(event: Event, answer: Answer) -> Quiet
    ensures { result.moment ≡ quieted (idle_moment event answer) }
{
    moment(event, answer, answer.signals, 0, None, None)
}

// With the bytes that are driven on DO and on DI.
fn moment(
    event: Event,
    answer: Answer,
    signals: u8,
    address: u32,
    out: Option<u8>,
    into: Option<u8>,
) -> Quiet
    ensures { result.moment ≡ quieted (moment_of event answer signals address (unwrap_or out 0) (unwrap_or into 0) (is_some out) (is_some into)) }
{
    let cyclic = out.is_some() || into.is_some();
    Quiet {
        moment: Moment {
            signals,
            lines: answer.lines,
            control: control(answer.phase, event.kind),
            status: answer.status,
            address: if cyclic { address } else { 0 },
            dout: out.unwrap_or(0),
            din: into.unwrap_or(0),
            cyclic,
            doutDriven: out.is_some(),
            dinDriven: into.is_some(),
        },
    }
}

// Kept: a datum's halves by division, since no array is held where digits are put, and `to_be_bytes` gives one.
fn even_half(datum: u16) -> u8
    ensures { result ≡ even_half datum }
{
    (datum / 0x100) as u8
}

fn odd_half(datum: u16) -> u8
    ensures { result ≡ odd_half datum }
{
    (datum % 0x100) as u8
}

fn odd_of_pair(address: u32) -> u32
    ensures { result ≡ odd_of_pair address }
{
    address | 1
}

fn without_request(signals: u8) -> u8
    ensures { result ≡ without_request signals }
{
    signals & !S_XTRQ
}
