//! The commands: what each is called, what it reads, and what it answers. Each stands in a file of its own.

ghost use Rattle.std.specs.Prelude.{◌≡◌, [], IfErr, IfOk};
ghost use Rattle.alg_core.specs.LimitRanges.{AreLimits};
ghost use Rattle.cert_check.specs.declared.verdict.Verdict.TheVariants as verdicts;
ghost use Rattle.invring_app.specs.Answers.{ending_of, IsAnswer, IsFault};
ghost use Rattle.invring_app.specs.Commands.{command_of, IsNumberOf, reads};
ghost use Rattle.invring_app.specs.Inputs.{IsReading};
ghost use Rattle.invring_app.specs.Outcomes.{status_after, status_with};

mod basis;
mod check;
mod demo;
mod lines;
mod order;
mod primary;
mod ring;
mod show;
mod summary;
mod verdicts;

use crate::fault::Fault;
use crate::reading::Kind;
use crate::status::Status;
use crate::words::Request;
use basis::basis_text;
use cert_check::Verdict;
use check::check_answer;
pub use check::check_text;
use demo::demo_summary;
use order::order_text;
use primary::primary_text;
pub use ring::ring_text;
use show::show_answer;
use std::alloc::Global;

/// What is to be done.
#[derive(Clone, Copy, Debug, PartialEq, Eq)]
pub enum Command {
    /// The echelon basis of the invariants of one degree.
    Basis { degree: u32 },
    /// The order of the group.
    Order,
    /// The first primary invariants, and the least powers of the variables in their ideal.
    Primary,
    /// The certificate of the generators.
    Ring,
    /// Whether a certificate holds.
    Check,
    /// The invariants of a certificate that holds.
    Show,
    /// The summary of the certificate of so many pairs of variables that are exchanged.
    Demo { pairs: u32 },
}

/// The command of this name, with the number that was given exactly where it needs one, in its range.
#[tactic(auto, unfolding(crate::specs::Commands::command_of))]
pub(crate) fn command_in(name: &str, number: Option<u32>) -> Option<Command>
    ensures is { result ≡ command_of name.now number }
{
    match name {
        "basis" => {
            let degree = number?;
            (degree <= 1000).then_some(Command::Basis { degree })
        }
        "order" => number.is_none().then_some(Command::Order),
        "primary" => number.is_none().then_some(Command::Primary),
        "ring" => number.is_none().then_some(Command::Ring),
        "check" => number.is_none().then_some(Command::Check),
        "show" => number.is_none().then_some(Command::Show),
        "demo" => {
            let pairs = number?;
            (1 <= pairs && pairs <= 4).then_some(Command::Demo { pairs })
        }
        _ => None,
    }
}

/// What the command reads.
pub(crate) fn input_of(command: Command) -> Kind
    ensures is { result ≡ reads command }
{
    match command {
        Command::Basis { .. } | Command::Order | Command::Primary | Command::Ring => Kind::Script,
        Command::Check | Command::Show => Kind::Certificate,
        Command::Demo { .. } => Kind::Nothing,
    }
}

/// What is written on the output, and the verdict on the certificate that was read: where none was, it is
/// `Accepted`.
#[derive(Drop)]
pub(crate) struct Answer {
    pub(crate) text: Vec<u8>,
    pub(crate) verdict: Verdict,
}

impl Answer {
    /// A text of which nothing was rejected.
    fn of(text: Vec<u8>) -> Answer
        ensures text { result.text.items ≡ text.items }
        ensures verdict { result.verdict ≡ verdicts.Accepted }
    {
        Answer {
            text,
            verdict: Verdict::Accepted,
        }
    }
}

/// What is to follow from a verdict when its text is written.
pub(crate) fn outcome(verdict: Verdict) -> Result<(), Status>
    ensures is { status_after result ≡ status_with verdict }
{
    match verdict {
        Verdict::Accepted => Ok(()),
        Verdict::Rejected { .. } => Err(Status::Rejected(verdict)),
    }
}

/// What the request asks for of the bytes that were read, or the first fault in the order
/// length, syntax, values, bounds. A command that reads nothing has no bytes.
pub(crate) fn answer_to(alloc: Global, request: Request, bytes: &[u8]) -> Result<Answer, Fault>
    requires number { IsNumberOf request.command }
    requires limits { AreLimits request.limits }
    requires none { ¬ IsReading (reads request.command) → bytes.now ≡ [] }
    ensures answer { IfOk result (λ a. IsAnswer request.command request.limits bytes.now (ending_of a.verdict a.text.items)) }
    ensures fault { IfErr result (IsFault request.command request.limits bytes.now) }
{
    let limits = request.limits;
    match request.command {
        Command::Basis { degree } => {
            let text = basis_text(alloc, bytes, degree, &limits)?;
            Ok(Answer::of(text))
        }
        Command::Order => {
            let text = order_text(alloc, bytes, &limits)?;
            Ok(Answer::of(text))
        }
        Command::Primary => {
            let text = primary_text(alloc, bytes, &limits)?;
            Ok(Answer::of(text))
        }
        Command::Ring => {
            let text = ring_text(alloc, bytes, &limits)?;
            Ok(Answer::of(text))
        }
        Command::Check => {
            let answer = check_answer(alloc, bytes, &limits)?;
            Ok(answer)
        }
        Command::Show => {
            let answer = show_answer(alloc, bytes, &limits)?;
            Ok(answer)
        }
        Command::Demo { pairs } => {
            let text = demo_summary(alloc, pairs, &limits)?;
            Ok(Answer::of(text))
        }
    }
}
