// Runs the program that prints pictures on the runs of examples/ that have pictures there, which its arguments name.
#![tactic(auto)]

fn main(rt: HostRuntime) {
    run_files::run_files(&rt, session::WANTS_PICTURES);
}
