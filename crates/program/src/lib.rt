// The text programs: they read their input, hand the session what came, and write what is wanted, answers, pictures or outcomes, to their output.
#![tactic(auto)]

ghost use Rattle.std.specs.Prelude.{◌≡◌, take};

use feeding::{feed, finish, fresh, has_room};
use session::{Fed, Stage};
use std::io::{self, ErrorKind, Read, Write};

// How many bytes stand in the text before a call.
#[derive(Clone, Copy)]
enum Filled {
    // Others may come behind them.
    More(usize),
    // No other counts: the input has ended, or setup was refused.
    Ended(usize),
}

// The places of a run: for what is read, for what is written, and the memory and the ports.
#[derive(Drop)]
struct Places<'a> {
    text: &'a mut [u8],
    out: &'a mut [u8],
    memory: &'a mut [u8],
    ports: &'a mut [u8],
}

// It has no result, and no contract can say what a file or a terminal gives and takes: the runs compare that.
pub fn run<R: Read, W: Write>(wanted: u8, input: &mut R, output: &mut W)
    ensures { result ≡ tt }
{
    // A text full of right lines has its answers written at once. Less room, down to 22 bytes of text and the most that is written at once, would do
    // with more calls of the system (docs/BENCH.md).
    let mut text = [0u8; 32768];
    let mut out = [0u8; 41984];
    let mut memory = [0u8; 65536];
    let mut ports = [0u8; 256];
    let mut places = Places {
        text: &mut text,
        out: &mut out,
        memory: &mut memory,
        ports: &mut ports,
    };
    // Where reading or writing fails it ends without a word.
    let _ = take_turns(wanted, input, output, &mut places);
}

// A proved loop ends, and no input is as long as this one may go on.
fn take_turns<R: Read, W: Write>(
    wanted: u8,
    input: &mut R,
    output: &mut W,
    places: &mut Places,
) -> io::Result<()> {
    let mut fed = Fed {
        session: fresh(),
        held: 0,
        written: 0,
    };
    for _ in 0..u64::MAX {
        let filled = places.fill(wanted, input, fed)?;
        fed = places.take_filled(wanted, fed, filled)?;
        places.write_said(output, fed.written)?;
        if let Filled::Ended(_) = filled {
            break;
        }
    }
    Ok(())
}

impl Places<'_> {
    // It reads only once every complete line is taken, so that nobody waits for an answer or a picture while the program waits for more. A refused
    // setup line ends the run: nothing more is read, as if the input ended there.
    fn fill<R: Read>(&mut self, wanted: u8, input: &mut R, fed: Fed) -> io::Result<Filled>
        ensures { take fed.held self.new.text.now ≡ take fed.held self.old.text.now }
    {
        if matches!(fed.session.stage, Stage::Ended) {
            Ok(Filled::Ended(fed.held))
        } else if has_room(wanted, self.out, fed.written) {
            read_behind(input, self.text, fed.held)
        } else {
            Ok(Filled::More(fed.held))
        }
    }

    // Once the input has ended nothing complete is held, and what is held is the unended last line; once setup was refused, no line counts any more.
    fn take_filled(&mut self, wanted: u8, fed: Fed, filled: Filled) -> io::Result<Fed> {
        let taken = match filled {
            Filled::More(size) => feed(
                wanted,
                fed.session,
                self.text,
                size,
                self.out,
                self.memory,
                self.ports,
            ),
            Filled::Ended(size) => finish(
                wanted,
                fed.session,
                self.text,
                size,
                self.out,
                self.memory,
                self.ports,
            ),
        };
        taken.map_err(|_| ErrorKind::InvalidInput.into())
    }

    fn write_said<W: Write>(&self, output: &mut W, written: usize) -> io::Result<()> {
        let Some(said) = self.out.get(..written) else {
            return Err(ErrorKind::InvalidData.into());
        };
        output.write_all(said)
    }
}

// What is held stays in front of what is read.
fn read_behind<R: Read>(input: &mut R, text: &mut [u8], held: usize) -> io::Result<Filled>
    ensures { take held text.new ≡ take held text.old }
{
    if text.len() <= held {
        return Err(ErrorKind::StorageFull.into());
    }
    let got = input.read(&mut text[held..])?;
    Ok(if got == 0 {
        Filled::Ended(held)
    } else {
        Filled::More(held + got)
    })
}
