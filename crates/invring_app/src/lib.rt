//! The call of the program: it reads the words and a script or a certificate, and writes what they ask for.
#![tactic(auto)]

mod arguments;
mod commands;
mod error_line;
mod fault;
mod field;
mod given;
mod laws;
mod number;
mod reading;
mod status;
mod top_call;
mod words;

pub use cert_check::Verdict;
pub use commands::{Command, check_text, ring_text};
pub use error_line::write_error;
pub use fault::{Fault as CheckFault, Fault as RingFault};
pub use laws::{
    bytes_are_read_once, own_certificates_accepted, own_certificates_read, requests_end_once,
    words_ask_once,
};
pub use status::{BoundFault, Status};
pub use top_call::run;
pub use words::Request;
