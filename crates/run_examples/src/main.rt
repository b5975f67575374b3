// Runs the text program on every file of examples/, which its arguments name.
#![tactic(auto)]

fn main(rt: HostRuntime) {
    run_files::run_files(&rt, session::WANTS_ANSWERS);
}
