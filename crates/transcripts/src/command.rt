//! The lines after `$ `.

use crate::edit::{Edit, edit_of};

/// Where the input of a run comes from.
#[derive(Clone, Copy)]
pub(crate) enum Input<'a> {
    Nothing,
    /// `echo 'TEXT' |`
    Line(&'a str),
    /// `printf 'TEXT' |`, with no newline
    Text(&'a str),
    /// `head -c N /dev/zero |`
    Zeros(usize),
    /// `sed 'EDIT' FILE |`
    Edited { edit: Edit<'a>, file: &'a str },
    /// `< FILE`
    File(&'a str),
}

#[derive(Clone, Copy)]
pub(crate) enum Command<'a> {
    /// `cat > FILE << END`: the lines up to `END` are the file.
    Write(&'a str),
    /// `cat FILE`
    Show(&'a str),
    /// `invring WORDS`, with its input, and with `> FILE` where its output is kept in a file.
    Run {
        input: Input<'a>,
        words: &'a str,
        to: Option<&'a str>,
    },
}

/// What stands before ` | `.
fn piped(source: &str) -> Option<Input<'_>> {
    if let Some(text) = source.strip_prefix("echo '") {
        return Some(Input::Line(text.strip_suffix('\'')?));
    }
    if let Some(text) = source.strip_prefix("printf '") {
        return Some(Input::Text(text.strip_suffix('\'')?));
    }
    if let Some(count) = source.strip_prefix("head -c ") {
        let count = count.strip_suffix(" /dev/zero")?;
        return Some(Input::Zeros(count.parse::<usize>().ok()?));
    }
    let (line, file) = source.strip_prefix("sed '")?.rsplit_once("' ")?;
    let edit = edit_of(line)?;
    Some(Input::Edited { edit, file })
}

/// A run of the program.
fn run_of(line: &str) -> Option<Command<'_>> {
    let (input, line) = match line.split_once(" | ") {
        Some((source, line)) => (piped(source)?, line),
        None => (Input::Nothing, line),
    };
    let words = line.strip_prefix("invring")?;
    let (words, to) = match words.split_once(" > ") {
        Some((words, file)) => (words, Some(file)),
        None => (words, None),
    };
    let (words, input) = match words.split_once(" < ") {
        Some((words, file)) => (words, Input::File(file)),
        None => (words, input),
    };
    Some(Command::Run { input, words, to })
}

/// The command of a line, where it is one.
pub(crate) fn command_of(line: &str) -> Option<Command<'_>> {
    if let Some(rest) = line.strip_prefix("cat > ") {
        return Some(Command::Write(rest.strip_suffix(" << END")?));
    }
    if let Some(file) = line.strip_prefix("cat ") {
        return Some(Command::Show(file));
    }
    run_of(line)
}
