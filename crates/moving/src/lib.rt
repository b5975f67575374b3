// Byte and word cycles on a memory of any length: specs/Cycles of `memory` says what each moves and what it leaves.
#![tactic(auto)]

ghost use Rattle.std.specs.Prelude.{◌≡◌, ◌+◌, ◌<◌};
ghost use Rattle.memory.specs.Cycles.{byte_read, byte_write, after_byte_write};
ghost use Rattle.memory.specs.Cycles.{together, word_fits, word_read, word_write, after_word_write};
ghost use Rattle.memory.specs.Told.{told, moved_in};

use memory::{Moved, Slave};

// ---- Bytes

#[tactic(auto, unfolding(memory::specs::Cycles::byte_read))]
pub fn byte_read(m: &[u8], at: usize) -> Option<Moved>
    ensures { moved_in result ≡ byte_read m.now at }
{
    let byte = *m.get(at)?;
    Some(Moved::in_one_cycle(u16::from(byte)))
}

#[tactic(auto, unfolding(memory::specs::Cycles::byte_write))]
pub fn byte_write(m: &mut [u8], at: usize, b: u8) -> Option<Moved>
    ensures moved { moved_in result ≡ byte_write m.old at b }
    ensures left { m.new ≡ after_byte_write m.old at b }
{
    // Kept: tried, and the proof didn't close: of what a slice's `get_mut` lent, the kit says how long the slice is afterwards, and no byte.
    if at < m.len() {
        m[at] = b;
        Some(Moved::in_one_cycle(u16::from(b)))
    } else {
        None
    }
}

// ---- A word's cycle: it is lent that pair alone. Where the slave asserts SIXTN both bytes go at once, and else in two byte cycles, the even
// address first (000, 2.6.3, 2.6.5.1).

fn word_read_pair(pair: &[u8], slave: Slave) -> Option<Moved>
    ensures { moved_in result ≡ word_read slave pair.now 0 }
{
    let pair: &[u8; 2] = pair.first_chunk()?;
    if slave.asserts_sixtn() {
        Some(Moved::in_one_cycle(u16::from_be_bytes(*pair)))
    } else {
        let even = byte_read(pair, 0)?;
        let odd = byte_read(pair, 1)?;
        Some(together(even, odd))
    }
}

fn word_write_pair(pair: &mut [u8], datum: u16, slave: Slave) -> Option<Moved>
    ensures moved { moved_in result ≡ word_write slave pair.old 0 datum }
    ensures left { pair.new ≡ after_word_write slave pair.old 0 datum }
{
    let pair: &mut [u8; 2] = pair.first_chunk_mut()?;
    let halves = datum.to_be_bytes();
    if slave.asserts_sixtn() {
        *pair = halves;
        Some(Moved::in_one_cycle(datum))
    } else {
        let even = byte_write(pair, 0, halves[0])?;
        let odd = byte_write(pair, 1, halves[1])?;
        Some(together(even, odd))
    }
}

// What two byte cycles moved, as one word.
// Kept: arithmetic, as the definition has it, since what a cycle moved is a number of sixteen bits (`Cycles.together`).
fn together(even: Moved, odd: Moved) -> Moved
    requires datums { (even.datum < 0x100) × (odd.datum < 0x100) }
    requires cycles { even.cycles + odd.cycles < 0x100 }
    ensures { told result ≡ together (told even) (told odd) }
{
    Moved {
        datum: even.datum * 0x100 + odd.datum,
        cycles: even.cycles + odd.cycles,
    }
}

// ---- Words

fn word_fits(size: usize, at: usize) -> bool
    ensures { result ≡ word_fits size at }
{
    at % 2 == 0 && at + 1 < size
}

pub fn word_read(m: &[u8], at: usize, slave: Slave) -> Option<Moved>
    ensures { moved_in result ≡ word_read slave m.now at }
{
    if word_fits(m.len(), at) {
        word_read_pair(&m[at..at + 2], slave)
    } else {
        None
    }
}

pub fn word_write(m: &mut [u8], at: usize, datum: u16, slave: Slave) -> Option<Moved>
    ensures moved { moved_in result ≡ word_write slave m.old at datum }
    ensures left { m.new ≡ after_word_write slave m.old at datum }
{
    if word_fits(m.len(), at) {
        word_write_pair(&mut m[at..at + 2], datum, slave)
    } else {
        None
    }
}
