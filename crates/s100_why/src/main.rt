// The text program that prints, at the end of its input, what the arbitration that the run has left means for each card.
#![tactic(auto)]

fn main(rt: HostRuntime) {
    program::run(session::WANTS_OUTCOMES, &mut rt.stdin(), &mut rt.stdout());
}
