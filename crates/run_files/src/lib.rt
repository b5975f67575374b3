// Runs of the text programs on files: on each that an argument names, in their order.
#![tactic(auto)]

ghost use Rattle.std.specs.Prelude.{◌≡◌};

use std::env::{Env, FillError};
use std::fs::File;
use std::io;
use std::rt::Files;

// It has no result, and what it prints is compared with a file. An argument that is longer than 64 bytes, is no UTF-8 or names no file that can be
// read is passed over.
pub fn run_files<R: Env + Files + Print>(rt: &R, wanted: u8)
    ensures { result ≡ tt }
{
    // Argument 0 is the program's own name.
    for n in 1..usize::MAX {
        let mut name = [0u8; 64];
        match rt.arg(n, &mut name) {
            Ok(size) => run_file(rt, wanted, &name[..size]),
            Err(FillError::TooLong) => {}
            Err(FillError::NotPresent) => break,
        }
    }
}

fn run_file<R: Files + Print>(rt: &R, wanted: u8, name: &[u8]) {
    if let Ok(path) = str::from_utf8(name)
        && let Ok(mut input) = File::open(rt, path)
    {
        program::run(wanted, &mut input, &mut io::writer(rt));
    }
}
