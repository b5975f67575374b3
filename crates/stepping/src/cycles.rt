// What a cycle does to memory and ports.
ghost use Rattle.std.specs.Prelude.{◌≡◌};
ghost use Rattle.memory.specs.Told.{moved_in};
ghost use Rattle.events.specs.Cycles.{moved_by, memory_left, ports_left};

use judgement::Event;
use memory::{Moved, Slave};
use moving::{byte_read, byte_write, word_read, word_write};
use phases::Kind;

#[tactic(auto, unfolding(words::specs::Among::beside))]
pub fn cycle(slave: Slave, event: Event, memory: &mut [u8], ports: &mut [u8]) -> Option<Moved>
    ensures moved { moved_in result ≡ moved_by slave event memory.old ports.old }
    ensures memory_left { memory.new ≡ memory_left slave event memory.old }
    ensures ports_left { ports.new ≡ ports_left event ports.old }
{
    let at = event.address as usize;
    let datum = event.datum;
    let [_, byte] = datum.to_be_bytes();
    match Kind::try_from(event.kind) {
        Ok(Kind::ByteRead | Kind::OpcodeFetch) => byte_read(memory, at),
        Ok(Kind::ByteWrite) => byte_write(memory, at, byte),
        Ok(Kind::WordRead) => word_read(memory, at, slave),
        Ok(Kind::WordWrite) => word_write(memory, at, datum, slave),
        Ok(Kind::Input) => byte_read(ports, at),
        Ok(Kind::Output) => byte_write(ports, at, byte),
        _ => None,
    }
}
