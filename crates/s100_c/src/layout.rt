// Where each field of a state stands in its bytes, and the bus in them.
ghost use Rattle.std.specs.Prelude.{◌≡◌, ◌+◌, ◌≤◌, MatchOption, true, false, take, drop};
ghost use Rattle.s100_c.specs.Layout.{state_size, is_state, state_bytes, bus_in};

use bus::Bus;

const FITTED_AT: usize = 0;

const PAGES_AT: usize = FITTED_AT + 2;

const PHASE_AT: usize = PAGES_AT + 16;

const CONTENDERS_AT: usize = PHASE_AT + 1;

const DRIVEN_AT: usize = CONTENDERS_AT + 2;

const GRANTED_AT: usize = DRIVEN_AT + 16;

pub const STATE_SIZE: usize = GRANTED_AT + 1;

// The bus in a buffer that is as long as a state.
pub fn lent_bus(state: &[u8]) -> Option<Bus>
    ensures { MatchOption result (is_state state.now ≡ false) (λ bus. (is_state state.now ≡ true) × (bus ≡ bus_in state.now)) }
{
    Some(bus_in(state.as_array()?))
}

pub fn bus_in(state: &[u8; STATE_SIZE]) -> Bus
    ensures { result ≡ bus_in state.now }
{
    Bus {
        fitted: u16::from_be_bytes(part(state, FITTED_AT)),
        pages: part(state, PAGES_AT),
        phase: state[PHASE_AT],
        contenders: u16::from_be_bytes(part(state, CONTENDERS_AT)),
        driven: part(state, DRIVEN_AT),
        granted: state[GRANTED_AT],
    }
}

// So many bytes from a place on.
fn part<const WIDTH: usize>(state: &[u8; STATE_SIZE], at: usize) -> [u8; WIDTH]
    requires { at + WIDTH ≤ state_size }
    ensures { result ≡ take WIDTH (drop at state.now) }
{
    let mut bytes = [0; WIDTH];
    bytes.copy_from_slice(&state[at..at + WIDTH]);
    bytes
}

pub fn put_bus(bus: Bus, state: &mut [u8; STATE_SIZE])
    ensures { state.new ≡ state_bytes bus }
{
    state[FITTED_AT..PAGES_AT].copy_from_slice(&bus.fitted.to_be_bytes());
    state[PAGES_AT..PHASE_AT].copy_from_slice(&bus.pages);
    state[PHASE_AT] = bus.phase;
    state[CONTENDERS_AT..DRIVEN_AT].copy_from_slice(&bus.contenders.to_be_bytes());
    state[DRIVEN_AT..GRANTED_AT].copy_from_slice(&bus.driven);
    state[GRANTED_AT] = bus.granted;
}
