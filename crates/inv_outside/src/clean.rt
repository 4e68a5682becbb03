ghost use Rattle.std.specs.Prelude.{◌≡◌, ◌<◌, ◌≤◌, ℕ, ◌++◌, [], min, length, take, drop, IfOk, OnErr, IsErr, Ok, Some};
ghost use Rattle.std.specs.Option.{option_copied};
ghost use Rattle.inv_outside.specs.Outside.{Rose, Took, kept_with};

use crate::ends::{Failed, Sink, Source};
use alg_core::Memory;
use std::alloc::Global;
use std::marker::Model;

/// Bytes in memory. It never fails, and is seen as the bytes that it has left.
#[derive(Drop)]
pub struct CleanSource {
    bytes: Vec<u8>,
    at: usize,
}

impl Model for CleanSource {
    ghost use Rattle.std.specs.Prelude.{List, ℕ, drop, ◌≤◌, length};

    ghost Value = { List ℕ };

    ghost view = { λ s. drop s.at s.bytes.items };

    ghost invariant = { λ s. s.at ≤ length s.bytes.items };
}

impl CleanSource {
    /// A source of these bytes.
    pub fn new(bytes: Vec<u8>) -> CleanSource
        ensures is { result ≡ bytes.items }
    {
        CleanSource { bytes, at: 0 }
    }
}

impl Source for CleanSource {
    ghost left = { λ s. Some s };

    ghost faults = { λ _. 0 };

    fn read(&mut self, buf: &mut [u8]) -> Result<usize, Failed>
        requires room { 0 < length buf.old }
        ensures within { IfOk result (λ k. k ≤ length buf.old) }
        ensures gave { IfOk result (λ k. self.old ≡ take k buf.new ++ self.new) }
        ensures end { result ≡ Ok 0 → self.new ≡ [] }
        ensures kept { OnErr result (self.new ≡ self.old) }

        // It does not fail, and gives all that fits.
        ensures count { result ≡ Ok (min (length buf.old) (length self.old)) }
    {
        let count = buf.len().min(self.bytes.len() - self.at);
        buf[..count].copy_from_slice(&self.bytes[self.at..self.at + count]);
        self.at += count;
        Ok(count)
    }
}

/// A buffer of fixed size that never fails. It takes every piece whole, and keeps what it took as
/// long as all of it fits; past that it drops the bytes, and tells nothing from then on.
#[derive(Drop)]
pub struct CleanSink {
    bytes: Vec<u8>,
    room: usize,
    is_past: bool,
}

impl Model for CleanSink {
    ghost use Rattle.std.specs.Prelude.{◌≤◌, length, vec_capacity, Some, None, if◌then◌else◌};
    ghost use Rattle.inv_outside.specs.Outside.{Keeping};

    ghost Value = { Keeping };

    ghost view = { λ s. record { taken = (if s.is_past then None else Some s.bytes.items); room = s.room } };

    ghost invariant = { λ s. (length s.bytes.items ≤ s.room) × (s.room ≤ vec_capacity s.bytes) };
}

impl CleanSink {
    /// A sink that keeps up to `room` bytes. Its memory is taken here, and none later.
    pub fn new(alloc: Global, room: usize) -> Result<CleanSink, Memory>
        ensures taken { IfOk result (λ s. s.taken ≡ Some []) }
        ensures room { IfOk result (λ s. s.room ≡ room) }
    {
        Ok(CleanSink {
            bytes: Vec::with_capacity(alloc, room)?,
            room,
            is_past: false,
        })
    }

    /// The bytes that it took, or nothing once they were more than it has room for.
    pub fn taken(&self) -> Option<&[u8]>
        ensures is { option_copied result ≡ self.now.taken }
    {
        if self.is_past {
            None
        } else {
            Some(self.bytes.as_slice())
        }
    }
}

impl Sink for CleanSink {
    ghost taken = { λ s. s.taken };

    ghost faults = { λ _. 0 };

    fn write(&mut self, piece: &[u8]) -> Result<usize, Failed>
        requires some { 0 < length piece.now }
        ensures took { Took self.old.taken piece.now self.new.taken }

        // It does not fail, takes all, and keeps it as long as there is room.
        ensures count { result ≡ Ok (length piece.now) }
        ensures is { self.new ≡ record self.old { taken = kept_with self.old piece.now } }
    {
        if piece.len() <= self.room - self.bytes.len() && !self.is_past {
            self.bytes.extend_from_slice(piece).unwrap();
        } else {
            self.is_past = true;
        }
        Ok(piece.len())
    }
}

/// A law for callers: the count of a clean end stays 0, and no count rises from 0 to 0. So an
/// answer that comes only where the count rose never comes over a clean source or sink.
pub fn clean_ends_never_rise(source: &CleanSource, sink: &CleanSink)
    ensures source { ⟦<CleanSource as Source>⟧.faults source.now ≡ 0 }
    ensures sink { ⟦<CleanSink as Sink>⟧.faults sink.now ≡ 0 }
    ensures never { ¬ (Rose 0 0) }
{}
