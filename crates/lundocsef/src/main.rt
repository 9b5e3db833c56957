//! The program: its words, standard input and standard output.
#![tactic(auto)]

use pl_io::{StdSink, StdSource};
use pl_main::{NO_MEMORY, run, words_of};
use pl_turn::NoGate;
use std::env;
use std::process::ExitCode;

fn main(rt: HostRuntime) -> ExitCode {
    let alloc = rt.alloc();
    let status = match words_of(alloc, env::args(&rt)) {
        Ok(words) => {
            let mut input = StdSource::new(rt.stdin());
            let mut out = StdSink::new(rt.stdout());
            run(&rt, alloc, words.as_slice(), &mut input, &mut out, &NoGate)
        }
        Err(_) => NO_MEMORY,
    };
    ExitCode::from(status)
}
