//! Answers transcripts: reads lines as a person types them in a shell, and writes the same text with
//! what the program answers to each. `docs/TRANSCRIPTS.md` has the form of the lines.
#![tactic(auto)]

mod command;
mod edit;
mod session;
mod streams;
mod words;

use inv_outside::{StdSink, write_all};
use session::answered;
use std::io;

fn main(rt: HostRuntime) -> io::Result<()> {
    let text = io::read_to_string(rt.alloc(), rt.stdin())?;
    let answered = answered(rt.alloc(), &text)?;
    match write_all(&mut StdSink::new(rt.stdout()), &answered) {
        Ok(()) => Ok(()),
        Err(_) => Err(io::Error::from(io::ErrorKind::WriteZero)),
    }
}
