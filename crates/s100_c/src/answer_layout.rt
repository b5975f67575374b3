// Where each field of an answer stands in its bytes.
ghost use Rattle.std.specs.Prelude.{◌≡◌};
ghost use Rattle.s100_c.specs.Layout.{answer_bytes, answer_in};

use events::Answer;

const REFUSAL_AT: usize = 0;

const PHASE_AT: usize = REFUSAL_AT + 1;

const GRANTED_AT: usize = PHASE_AT + 1;

const LINES_AT: usize = GRANTED_AT + 1;

const SIGNALS_AT: usize = LINES_AT + 1;

const STATUS_AT: usize = SIGNALS_AT + 1;

const CYCLES_AT: usize = STATUS_AT + 1;

const DATUM_AT: usize = CYCLES_AT + 1;

pub const ANSWER_SIZE: usize = DATUM_AT + 2;

pub fn put_answer(answer: Answer, bytes: &mut [u8; ANSWER_SIZE])
    ensures { bytes.new ≡ answer_bytes answer }
{
    bytes[REFUSAL_AT] = answer.refusal;
    bytes[PHASE_AT] = answer.phase;
    bytes[GRANTED_AT] = answer.granted;
    bytes[LINES_AT] = answer.lines;
    bytes[SIGNALS_AT] = answer.signals;
    bytes[STATUS_AT] = answer.status;
    bytes[CYCLES_AT] = answer.cycles;
    bytes[DATUM_AT..].copy_from_slice(&answer.datum.to_be_bytes());
}

pub fn answer_in(bytes: &[u8; ANSWER_SIZE]) -> Answer
    ensures { result ≡ answer_in bytes.now }
{
    Answer {
        refusal: bytes[REFUSAL_AT],
        phase: bytes[PHASE_AT],
        granted: bytes[GRANTED_AT],
        lines: bytes[LINES_AT],
        signals: bytes[SIGNALS_AT],
        status: bytes[STATUS_AT],
        cycles: bytes[CYCLES_AT],
        datum: u16::from_be_bytes([bytes[DATUM_AT], bytes[DATUM_AT + 1]]),
    }
}
