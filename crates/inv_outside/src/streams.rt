ghost use Rattle.std.specs.Prelude.{◌≡◌, ◌<◌, ◌≤◌, length, IfOk, OnOk, OnErr, IsErr};
ghost use Rattle.std.specs.Io.KnownBytes.{ReadConsumes, WriteAppends};
ghost use Rattle.inv_outside.specs.Outside.{Rose, one_more};

use crate::ends::{Failed, Sink, Source};
use std::io::{Read, Write};
use std::marker::Model;

/// A reader of the standard library. As a source it tells nothing of its bytes. It is seen as the
/// count of its faults and the bytes that the reader knows to have left: none are known of
/// standard input, all of a slice.
#[derive(Drop)]
pub struct StdSource<R: Read> {
    inner: R,
    failed: u64,
}

impl<R: Read> Model for StdSource<R> {
    ghost use Rattle.inv_outside.specs.Outside.{Stream};

    ghost Value = { Stream };

    ghost view = { λ s. record { known = R.remaining s.inner; faults = s.failed } };
}

impl<R: Read> StdSource<R> {
    /// A source over this reader, with no fault yet.
    pub fn new(inner: R) -> StdSource<R>
        ensures known { result.known ≡ R.remaining inner }
        ensures faults { result.faults ≡ 0 }
    {
        StdSource { inner, failed: 0 }
    }
}

impl<R: Read> Source for StdSource<R> {
    ghost use Rattle.std.specs.Prelude.{None};

    ghost left = { λ _. None };

    ghost faults = { λ s. s.faults };

    fn read(&mut self, buf: &mut [u8]) -> Result<usize, Failed>
        requires room { 0 < length buf.old }
        ensures within { IfOk result (λ k. k ≤ length buf.old) }
        ensures cause { IsErr result → Rose self.old.faults self.new.faults }
        ensures later { self.old.faults ≤ self.new.faults }

        // Exactly the calls that fail are counted, and the known bytes are given.
        ensures ok { OnOk result (self.new.faults ≡ self.old.faults) }
        ensures err { OnErr result (self.new.faults ≡ one_more self.old.faults) }
        ensures known { ReadConsumes self.old.known self.new.known result buf.new }
    {
        match self.inner.read(buf) {
            Ok(count) => Ok(count),
            Err(_) => {
                self.failed = self.failed.saturating_add(1);
                Err(Failed)
            }
        }
    }
}

/// A writer of the standard library. As a sink it tells nothing of its bytes. It is seen as the
/// count of its faults and the bytes that the writer knows to hold: none are known of standard
/// output, all of a vector.
#[derive(Drop)]
pub struct StdSink<W: Write> {
    inner: W,
    failed: u64,
}

impl<W: Write> Model for StdSink<W> {
    ghost use Rattle.inv_outside.specs.Outside.{Stream};

    ghost Value = { Stream };

    ghost view = { λ s. record { known = W.contents s.inner; faults = s.failed } };
}

impl<W: Write> StdSink<W> {
    /// A sink over this writer, with no fault yet.
    pub fn new(inner: W) -> StdSink<W>
        ensures known { result.known ≡ W.contents inner }
        ensures faults { result.faults ≡ 0 }
    {
        StdSink { inner, failed: 0 }
    }
}

impl<W: Write> Sink for StdSink<W> {
    ghost use Rattle.std.specs.Prelude.{None};

    ghost taken = { λ _. None };

    ghost faults = { λ s. s.faults };

    /// A writer that takes nothing counts as one that fails.
    fn write(&mut self, piece: &[u8]) -> Result<usize, Failed>
        requires some { 0 < length piece.now }
        ensures progress { IfOk result (λ k. 0 < k) }
        ensures within { IfOk result (λ k. k ≤ length piece.now) }
        ensures cause { IsErr result → Rose self.old.faults self.new.faults }
        ensures later { self.old.faults ≤ self.new.faults }

        // Exactly the calls that fail are counted, and the known bytes grow by what was taken.
        ensures ok { OnOk result (self.new.faults ≡ self.old.faults) }
        ensures err { OnErr result (self.new.faults ≡ one_more self.old.faults) }
        ensures known { WriteAppends self.old.known self.new.known result piece.now }
    {
        match self.inner.write(piece) {
            Ok(count) if count > 0 => Ok(count),
            _ => {
                self.failed = self.failed.saturating_add(1);
                Err(Failed)
            }
        }
    }
}
