// The text program.
#![tactic(auto)]

fn main(rt: HostRuntime) {
    program::run(session::WANTS_ANSWERS, &mut rt.stdin(), &mut rt.stdout());
}
