//! Flat-folded states of origami crease patterns, from standard input to standard output.
#![tactic(auto)]

use ff_outside::{NoGate, StdSink, StdSource};
use ff_top::status::Status;
use ff_top::top::run;
use std::alloc::{AllocError, Global};
use std::env::{self, Args};
use std::io::{self, ErrorKind};
use std::process::ExitCode;

// The words after the program's name.
fn words_of(alloc: Global, args: Args) -> Result<Vec<String>, AllocError> {
    args.skip(1).collect(alloc)
}

fn main(rt: HostRuntime) -> ExitCode {
    let alloc = rt.alloc();
    let words = match env::args(&rt) {
        Ok(args) => words_of(alloc, args),
        // A word that isn't UTF-8 is none of the program's, so these words are answered as no words are.
        Err(e) if e.kind() == ErrorKind::InvalidData => Ok(Vec::new(alloc)),
        Err(_) => Err(AllocError),
    };
    let status = match words {
        Ok(words) => run(
            &rt,
            alloc,
            words.as_slice(),
            &mut StdSource::new(rt.reader()),
            &mut StdSink::new(io::writer(&rt)),
            &NoGate,
        ),
        Err(_) => Status::NoMemory,
    };
    ExitCode::from(status.number())
}
