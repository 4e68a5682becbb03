//! How the streams of a run behave.

use inv_outside::{MemSink, MemSource};
use std::alloc::{AllocError, Global};

/// The most bytes that a call moves, the numbers of the calls that fail, from 1, and how many bytes a
/// sink has room for.
#[derive(Drop)]
pub(crate) struct Stream {
    pieces: usize,
    fails: Vec<u64>,
    room: usize,
}

impl Stream {
    /// A stream that never fails, for outputs of usual length.
    fn plain(alloc: Global) -> Stream {
        Stream {
            pieces: 4096,
            fails: Vec::new(alloc),
            room: 1048576,
        }
    }

    /// Takes `pieces N`, `fails N` or `room N`; says whether it is one of them.
    fn take(&mut self, setting: &str) -> Result<bool, AllocError> {
        let Some((name, value)) = setting.split_once(' ') else {
            return Ok(false);
        };
        let Ok(value) = value.parse::<usize>() else {
            return Ok(false);
        };
        match name {
            "pieces" => self.pieces = value,
            "fails" => self.fails.push(value as u64)?,
            "room" => self.room = value,
            _ => return Ok(false),
        }
        Ok(true)
    }

    pub(crate) fn source(self, bytes: Vec<u8>) -> MemSource {
        MemSource::new(bytes, self.pieces.max(1), self.fails)
    }

    pub(crate) fn sink(self, alloc: Global) -> Result<MemSink, AllocError> {
        MemSink::new(alloc, self.pieces.max(1), self.fails, self.room).map_err(|_| AllocError)
    }
}

/// The three streams of a run.
#[derive(Drop)]
pub(crate) struct Streams {
    pub input: Stream,
    pub output: Stream,
    pub errors: Stream,
}

impl Streams {
    /// Streams that never fail.
    pub(crate) fn plain(alloc: Global) -> Streams {
        Streams {
            input: Stream::plain(alloc),
            output: Stream::plain(alloc),
            errors: Stream::plain(alloc),
        }
    }

    /// Takes a line `STREAM: SETTING, SETTING ..`; says whether it is one.
    pub(crate) fn take(&mut self, line: &str) -> Result<bool, AllocError> {
        let Some((name, settings)) = line.split_once(": ") else {
            return Ok(false);
        };
        let stream = match name {
            "input" => &mut self.input,
            "output" => &mut self.output,
            "errors" => &mut self.errors,
            _ => return Ok(false),
        };
        for setting in settings.split(", ") {
            if !stream.take(setting)? {
                return Ok(false);
            }
        }
        Ok(true)
    }
}
