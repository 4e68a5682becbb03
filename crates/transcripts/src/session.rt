//! A transcript, line after line: the files that are kept, and what is written.

use crate::command::{Command, Input, command_of};
use crate::edit::edited;
use crate::streams::Streams;
use crate::words::words;
use invring_app::run;
use std::alloc::{AllocError, Global};
use std::mem;

/// A file that a line wrote.
#[derive(Drop)]
struct File {
    name: String,
    bytes: Vec<u8>,
}

/// What a run answered.
#[derive(Drop)]
struct Answer {
    code: u8,
    output: Vec<u8>,
    errors: Vec<u8>,
}

/// What was read and written so far. Of two files with one name the later counts.
#[derive(Drop)]
struct Session {
    files: Vec<File>,
    streams: Streams,
    is_writing: bool,
    text: Vec<u8>,
}

impl Session {
    fn begun(alloc: Global) -> Session {
        Session {
            files: Vec::new(alloc),
            streams: Streams::plain(alloc),
            is_writing: false,
            text: Vec::new(alloc),
        }
    }

    /// The bytes of a file, where it is there.
    fn file(&self, name: &str) -> Option<&[u8]> {
        for file in self.files.iter().rev() {
            if file.name.as_str() == name {
                return Some(file.bytes.as_slice());
            }
        }
        None
    }

    fn keep(&mut self, alloc: Global, name: &str, bytes: Vec<u8>) -> Result<(), AllocError> {
        let name = String::from_str(alloc, name)?;
        self.files.push(File { name, bytes })?;
        Ok(())
    }

    /// Writes a line.
    fn say(&mut self, mark: &str, line: &[u8]) -> Result<(), AllocError> {
        self.text.extend_from_slice(mark.as_bytes())?;
        self.text.extend_from_slice(line)?;
        self.text.push(b'\n')?;
        Ok(())
    }

    /// Writes bytes line after line, each with the mark before it, and says where the last newline lacks.
    fn say_all(&mut self, mark: &str, bytes: &[u8]) -> Result<(), AllocError> {
        let whole = match bytes.strip_suffix(b"\n".as_slice()) {
            Some(whole) => whole,
            None => bytes,
        };
        if bytes.is_empty() {
            return Ok(());
        }
        for line in whole.split(|b| *b == b'\n') {
            self.say(mark, line)?;
        }
        if whole.len() == bytes.len() {
            self.say("\\ no newline at the end", b"")?;
        }
        Ok(())
    }

    /// The bytes that a run gets, where its file is there.
    fn input(&self, alloc: Global, input: Input<'_>) -> Result<Option<Vec<u8>>, AllocError> {
        let bytes = match input {
            Input::Nothing => Vec::new(alloc),
            Input::Text(text) => Vec::from_slice(alloc, text.as_bytes())?,
            Input::Line(text) => format!(in alloc; "{text}\n")?.into_bytes(),
            Input::Zeros(count) => vec![in alloc; 0; count]?,
            Input::File(name) => match self.file(name) {
                Some(bytes) => Vec::from_slice(alloc, bytes)?,
                None => return Ok(None),
            },
            Input::Edited { edit, file } => match self.file(file) {
                Some(bytes) => edited(alloc, bytes, edit)?,
                None => return Ok(None),
            },
        };
        Ok(Some(bytes))
    }

    /// Runs the program, with the streams as they are set for this run.
    fn run(
        &mut self,
        alloc: Global,
        words: &[String],
        bytes: Vec<u8>,
    ) -> Result<Answer, AllocError> {
        let streams = mem::replace(&mut self.streams, Streams::plain(alloc));
        let Streams {
            input,
            output,
            errors,
        } = streams;
        let mut source = input.source(bytes);
        let mut output = output.sink(alloc)?;
        let mut errors = errors.sink(alloc)?;
        let status = run(alloc, words, &mut source, &mut output, &mut errors);
        Ok(Answer {
            code: status.code(),
            output: Vec::from_slice(alloc, output.taken())?,
            errors: Vec::from_slice(alloc, errors.taken())?,
        })
    }

    /// Writes the status, the output, where it goes into no file, and the error line.
    fn tell(&mut self, alloc: Global, answer: Answer, to: Option<&str>) -> Result<(), AllocError> {
        let Answer {
            code,
            output,
            errors,
        } = answer;
        let status = format!(in alloc; "status {code}")?;
        self.say("", status.as_bytes())?;
        match to {
            Some(name) => self.keep(alloc, name, output)?,
            None => self.say_all("> ", &output)?,
        }
        self.say_all("! ", &errors)
    }

    /// Does what a line says.
    fn obey(&mut self, alloc: Global, command: Command<'_>) -> Result<(), AllocError> {
        match command {
            Command::Write(name) => {
                self.is_writing = true;
                self.keep(alloc, name, Vec::new(alloc))
            }
            Command::Show(name) => match self.input(alloc, Input::File(name))? {
                Some(bytes) => self.say_all("> ", &bytes),
                None => self.say("? no file ", name.as_bytes()),
            },
            Command::Run {
                input,
                words: line,
                to,
            } => match self.input(alloc, input)? {
                Some(bytes) => {
                    let words = words(alloc, line)?;
                    let answer = self.run(alloc, &words, bytes)?;
                    self.tell(alloc, answer, to)
                }
                None => self.say("? no file for", line.as_bytes()),
            },
        }
    }

    /// Adds a line to the file that is written, up to `END`.
    fn write(&mut self, line: &str) -> Result<(), AllocError> {
        if line == "END" {
            self.is_writing = false;
        } else if let Some(file) = self.files.last_mut() {
            file.bytes.extend_from_slice(line.as_bytes())?;
            file.bytes.push(b'\n')?;
        }
        Ok(())
    }

    /// Copies a line, and answers it.
    fn step(&mut self, alloc: Global, line: &str) -> Result<(), AllocError> {
        self.say("", line.as_bytes())?;
        if self.is_writing {
            return self.write(line);
        }
        if let Some(setting) = line.strip_prefix("% ") {
            if !self.streams.take(setting)? {
                self.say("? no setting", b"")?;
            }
        }
        if let Some(typed) = line.strip_prefix("$ ") {
            match command_of(typed) {
                Some(command) => self.obey(alloc, command)?,
                None => self.say("? no command", b"")?,
            }
        }
        Ok(())
    }
}

/// The text with the answers.
pub(crate) fn answered(alloc: Global, text: &str) -> Result<Vec<u8>, AllocError> {
    let mut session = Session::begun(alloc);
    for line in text.lines() {
        session.step(alloc, line)?;
    }
    Ok(session.text)
}
