//! The program: standard input and output, the words of the command line, and the status.
#![tactic(auto)]

use std::alloc::Global;
use std::mem::forget;
use std::process::ExitCode;
use std::{env, io};
use tp_outside::{OpenGate, StdSink, StdSource};
use tp_run::{Cause, tempo};

fn main(rt: HostRuntime) -> ExitCode {
    let words = match words(&rt, rt.alloc()) {
        Ok(words) => words,
        Err(cause) => {
            let _ = eprintln!(rt; "tempo: {cause}");
            return ExitCode::from(cause.status());
        }
    };
    let mut input = StdSource::new(rt.reader());
    let mut out = StdSink::new(io::writer(&rt));
    let finished = tempo(
        &rt,
        rt.alloc(),
        words.as_slice(),
        &mut input,
        &mut out,
        &OpenGate,
    );
    match &finished.cause {
        None | Some(Cause::Verdict { .. }) => {}
        Some(cause) => {
            let _ = eprintln!(rt; "tempo: {cause}");
        }
    }
    let status = finished.status;
    // The process ends here, so what it holds isn't given back piece by piece.
    forget(finished);
    ExitCode::from(status)
}

// The words behind the program's name. They are refused where one of them isn't text.
fn words(rt: &HostRuntime, alloc: Global) -> Result<Vec<String>, Cause> {
    let args = match env::args(rt) {
        Ok(args) => args,
        Err(error) => {
            return Err(match error.kind() {
                io::ErrorKind::OutOfMemory => Cause::Memory,
                _ => Cause::Words,
            });
        }
    };
    let mut words = Vec::new(alloc);
    for word in args.skip(1) {
        if words.push(word).is_err() {
            return Err(Cause::Memory);
        }
    }
    Ok(words)
}
