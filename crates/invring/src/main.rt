//! The program: it reads standard input, writes standard output, and ends with the status of the
//! run.
#![tactic(auto)]

use inv_outside::{StdSink, StdSource};
use invring_app::{Status, run, write_error};
use std::process::ExitCode;
use std::{env, io};

fn main(rt: HostRuntime) -> ExitCode {
    let status = match words(&rt) {
        Ok(words) => work(&rt, &words),
        Err(error) if error.kind() == io::ErrorKind::OutOfMemory => refused(&rt, Status::Memory),
        // A word that is no text is no word of a command.
        Err(_) => refused(&rt, Status::Usage),
    };
    ExitCode::from(status.code())
}

/// The end of a run whose words could not be read.
fn refused(rt: &HostRuntime, status: Status) -> Status {
    let _ = write_error(&mut StdSink::new(rt.stderr()), &status);
    status
}

/// The words after the program's name.
fn words(rt: &HostRuntime) -> io::Result<Vec<String>> {
    let mut words = Vec::new(rt.alloc());
    for word in env::args(rt)?.skip(1) {
        words.push(word)?;
    }
    Ok(words)
}

/// The run over the standard streams.
fn work(rt: &HostRuntime, words: &[String]) -> Status {
    let mut source = StdSource::new(rt.stdin());
    let mut output = StdSink::new(rt.stdout());
    let mut errors = StdSink::new(rt.stderr());
    run(rt.alloc(), words, &mut source, &mut output, &mut errors)
}
