// The text program that prints pictures of the pins.
#![tactic(auto)]

fn main(rt: HostRuntime) {
    program::run(session::WANTS_PICTURES, &mut rt.stdin(), &mut rt.stdout());
}
