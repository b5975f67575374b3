// The fields of a state in a lent buffer, what its lines show, and whether it makes sense.
ghost use Rattle.std.specs.Prelude.{◌≡◌, cond, ltb, get_or};
ghost use Rattle.bus.specs.State.{lines_of};
ghost use Rattle.s100_c.specs.Calls.{no_field, field_of, entry_of, is_sensible};

use crate::layout::lent_bus;
use sense::makes_sense;

// The buffer isn't as long as a state, or there is no such page or card.
// Kept: a number, which is what the C interface answers.
const NO_FIELD: u32 = 0xFFFFFFFF;

#[unsafe(no_mangle)]
pub extern "C" fn s100_fitted(state: &[u8]) -> u32
    ensures { result ≡ field_of (λ bus. bus.fitted) state.now }
{
    lent_bus(state).map_or(NO_FIELD, |bus| u32::from(bus.fitted))
}

#[unsafe(no_mangle)]
pub extern "C" fn s100_page(state: &[u8], page: u8) -> u32
    ensures { result ≡ entry_of (λ bus. bus.pages) state.now page }
{
    lent_bus(state).map_or(NO_FIELD, |bus| entry(bus.pages, page))
}

#[unsafe(no_mangle)]
pub extern "C" fn s100_phase(state: &[u8]) -> u32
    ensures { result ≡ field_of (λ bus. bus.phase) state.now }
{
    lent_bus(state).map_or(NO_FIELD, |bus| u32::from(bus.phase))
}

#[unsafe(no_mangle)]
pub extern "C" fn s100_contenders(state: &[u8]) -> u32
    ensures { result ≡ field_of (λ bus. bus.contenders) state.now }
{
    lent_bus(state).map_or(NO_FIELD, |bus| u32::from(bus.contenders))
}

#[unsafe(no_mangle)]
pub extern "C" fn s100_driven(state: &[u8], card: u8) -> u32
    ensures { result ≡ entry_of (λ bus. bus.driven) state.now card }
{
    lent_bus(state).map_or(NO_FIELD, |bus| entry(bus.driven, card))
}

#[unsafe(no_mangle)]
pub extern "C" fn s100_granted(state: &[u8]) -> u32
    ensures { result ≡ field_of (λ bus. bus.granted) state.now }
{
    lent_bus(state).map_or(NO_FIELD, |bus| u32::from(bus.granted))
}

#[unsafe(no_mangle)]
pub extern "C" fn s100_lines(state: &[u8]) -> u32
    ensures { result ≡ field_of lines_of state.now }
{
    lent_bus(state).map_or(NO_FIELD, |bus| u32::from(bus.lines()))
}

#[unsafe(no_mangle)]
pub extern "C" fn s100_makes_sense(state: &[u8]) -> bool
    ensures { result ≡ is_sensible state.now }
{
    lent_bus(state).is_some_and(makes_sense)
}

fn entry(entries: [u8; 16], n: u8) -> u32
    ensures { result ≡ cond (ltb n 16) (get_or entries n 0) no_field }
{
    entries
        .get(usize::from(n))
        .map_or(NO_FIELD, |entry| u32::from(*entry))
}
