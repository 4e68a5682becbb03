ghost use Rattle.std.specs.Prelude.{◌≡◌, IfSome, IfNone, map, string_bytes};
ghost use Rattle.alg_core.specs.LimitRanges.{AreLimits};
ghost use Rattle.invring_app.specs.Commands.{IsNumberOf};
ghost use Rattle.invring_app.specs.Words.{IsRequest};
ghost use Rattle.invring_app.specs.WordReading.{give, step_of, arguments_of, request_of};
ghost use Rattle.invring_app.specs.declared.words.Request.{Request as Asked};

use crate::arguments::Argument;
use crate::commands::{Command, command_in};
use crate::given::Given;
use crate::number::number;
use alg_core::Limits;

/// What the words ask for.
#[derive(Clone, Copy, Debug, PartialEq, Eq)]
pub struct Request {
    pub command: Command,
    pub limits: Limits,
}

/// What was read so far, and the option whose value the next word is.
#[derive(Clone, Copy, Debug)]
struct Reading {
    given: Given,
    awaited: Option<Argument>,
}

/// What is given with the value that a text writes for an argument, which is to have none so far.
#[tactic(auto, unfolding(crate::specs::WordReading::give))]
fn give(given: Given, argument: Argument, text: &str) -> Option<Reading>
    ensures is { result ≡ give given argument text.now }
{
    if given.at(argument).is_some() {
        return None;
    }
    let value = number(argument.most(), text.as_bytes())?;
    if value < argument.least() {
        return None;
    }
    Some(Reading {
        given: given.with(argument, value),
        awaited: None,
    })
}

/// What is read with one word more.
#[tactic(auto, unfolding(crate::specs::WordReading::step_of))]
fn step(reading: Reading, word: &str) -> Option<Reading>
    ensures is { result ≡ step_of reading word.now }
{
    let Reading { given, awaited } = reading;
    if let Some(argument) = awaited {
        return give(given, argument, word);
    }
    if let Some((name, value)) = word.split_once('=') {
        let argument = Argument::named(name)?;
        return give(given, argument, value);
    }
    match Argument::named(word) {
        Some(argument) => Some(Reading {
            given,
            awaited: Some(argument),
        }),
        None => give(given, Argument::Number, word),
    }
}

/// What the words after the command's name give.
#[tactic(auto, unfolding(crate::specs::WordReading::arguments_of))]
fn arguments_in(words: &[String]) -> Option<Given>
    ensures is { result ≡ arguments_of (map string_bytes words.now) }
{
    let mut reading = Reading {
        given: Given::nothing(),
        awaited: None,
    };
    for word in words {
        match step(reading, word.as_str()) {
            Some(next) => reading = next,
            None => return None,
        }
    }
    match reading.awaited {
        Some(_) => None,
        None => Some(reading.given),
    }
}

/// What the words ask for, by their reading from the left.
fn request_in(words: &[String]) -> Option<Request>
    ensures is { result ≡ request_of (map string_bytes words.now) }
{
    let (name, rest) = words.split_first()?;
    let given = arguments_in(rest)?;
    let command = command_in(name.as_str(), given.number)?;
    Some(Request {
        command,
        limits: given.limits(),
    })
}

/// What the words ask for. It takes no memory.
pub(crate) fn read_words(words: &[String]) -> Option<Request>
    ensures some { IfSome result (IsRequest (map string_bytes words.now)) }
    ensures number { IfSome result (λ r. IsNumberOf r.command) }
    ensures limits { IfSome result (λ r. AreLimits r.limits) }
    ensures none { IfNone result ((r : Asked) → ¬ IsRequest (map string_bytes words.now) r) }
{
    request_in(words)
}
