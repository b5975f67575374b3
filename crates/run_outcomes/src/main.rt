// Runs the program that prints outcomes on the runs of examples/ that have outcomes there, which its arguments name.
#![tactic(auto)]

fn main(rt: HostRuntime) {
    run_files::run_files(&rt, session::WANTS_OUTCOMES);
}
