ghost use Rattle.std.specs.Prelude.{◌≡◌, ◌↔◌, ◌<◌, ◌≤◌, ◌-◌, ◌++◌, [], min, length, take, drop, IfOk, OnErr, IsErr, Ok};
ghost use Rattle.inv_outside.specs.Outside.{Rose, no_calls, NextFails, NextIsRefused, after_call, after_fault};

use crate::calls::Calls;
use crate::ends::{Failed, Sink, Source};
use alg_core::Memory;
use std::alloc::Global;
use std::marker::Model;

/// Bytes in memory, given in pieces. Chosen calls fail, and no others.
#[derive(Drop)]
pub struct MemSource {
    bytes: Vec<u8>,
    at: usize,
    piece: usize,
    calls: Calls,
}

impl Model for MemSource {
    ghost use Rattle.std.specs.Prelude.{drop, ◌<◌, ◌≤◌, length};
    ghost use Rattle.inv_outside.specs.Outside.{Reading};

    ghost Value = { Reading };

    ghost view = { λ s. record { left = drop s.at s.bytes.items; piece = s.piece; log = s.calls } };

    ghost invariant = { λ s. (s.at ≤ length s.bytes.items) × (0 < s.piece) };
}

impl MemSource {
    /// A source of these bytes that gives at most `piece` of them in a call. The calls whose
    /// numbers, from 1, are in `failing` fail.
    pub fn new(bytes: Vec<u8>, piece: usize, failing: Vec<u64>) -> MemSource
        requires piece { 1 ≤ piece }
        ensures left { result.left ≡ bytes.items }
        ensures piece { result.piece ≡ piece }
        ensures log { result.log ≡ no_calls failing.items }
    {
        MemSource {
            bytes,
            at: 0,
            piece,
            calls: Calls::new(failing),
        }
    }
}

impl Source for MemSource {
    ghost use Rattle.std.specs.Prelude.{Some};

    ghost left = { λ s. Some s.left };

    ghost faults = { λ s. s.log.faults };

    fn read(&mut self, buf: &mut [u8]) -> Result<usize, Failed>
        requires room { 0 < length buf.old }
        ensures within { IfOk result (λ k. k ≤ length buf.old) }
        ensures gave { IfOk result (λ k. self.old.left ≡ take k buf.new ++ self.new.left) }
        ensures end { result ≡ Ok 0 → self.new.left ≡ [] }
        ensures kept { OnErr result (self.new.left ≡ self.old.left) }
        ensures cause { IsErr result → Rose self.old.log.faults self.new.log.faults }
        ensures later { self.old.log.faults ≤ self.new.log.faults }

        // Which calls fail, how much the others give, and what becomes of the source.
        ensures listed { IsErr result ↔ NextFails self.old.log }
        ensures count { IfOk result (λ k. k ≡ min (length buf.old) (min self.old.piece (length self.old.left))) }
        ensures ok { IfOk result (λ k. self.new ≡ record self.old { left = drop k self.old.left; log = after_call self.old.log }) }
        ensures err { OnErr result (self.new ≡ record self.old { log = after_fault self.old.log }) }
    {
        if self.calls.next_fails() {
            self.calls.count_fault();
            return Err(Failed);
        }
        self.calls.count_call();
        let count = buf.len().min(self.piece).min(self.bytes.len() - self.at);
        buf[..count].copy_from_slice(&self.bytes[self.at..self.at + count]);
        self.at += count;
        Ok(count)
    }
}

/// A buffer of fixed size, filled in pieces. Chosen calls fail, and each call once it is full.
#[derive(Drop)]
pub struct MemSink {
    bytes: Vec<u8>,
    room: usize,
    piece: usize,
    calls: Calls,
}

impl Model for MemSink {
    ghost use Rattle.std.specs.Prelude.{◌<◌, ◌≤◌, length, vec_capacity};
    ghost use Rattle.inv_outside.specs.Outside.{Writing};

    ghost Value = { Writing };

    ghost view = { λ s. record { taken = s.bytes.items; room = s.room; piece = s.piece; log = s.calls } };

    ghost invariant = { λ s. (length s.bytes.items ≤ s.room) × (s.room ≤ vec_capacity s.bytes) × (0 < s.piece) };
}

impl MemSink {
    /// A sink with room for `room` bytes that takes at most `piece` of them in a call. The calls
    /// whose numbers, from 1, are in `failing` fail. Its memory is taken here, and none later.
    pub fn new(
        alloc: Global,
        piece: usize,
        failing: Vec<u64>,
        room: usize,
    ) -> Result<MemSink, Memory>
        requires piece { 1 ≤ piece }
        ensures taken { IfOk result (λ s. s.taken ≡ []) }
        ensures room { IfOk result (λ s. s.room ≡ room) }
        ensures piece { IfOk result (λ s. s.piece ≡ piece) }
        ensures log { IfOk result (λ s. s.log ≡ no_calls failing.items) }
    {
        Ok(MemSink {
            bytes: Vec::with_capacity(alloc, room)?,
            room,
            piece,
            calls: Calls::new(failing),
        })
    }

    /// The bytes that it took.
    pub fn taken(&self) -> &[u8]
        ensures is { result.now ≡ self.now.taken }
    {
        self.bytes.as_slice()
    }
}

impl Sink for MemSink {
    ghost use Rattle.std.specs.Prelude.{Some};

    ghost taken = { λ s. Some s.taken };

    ghost faults = { λ s. s.log.faults };

    fn write(&mut self, piece: &[u8]) -> Result<usize, Failed>
        requires some { 0 < length piece.now }
        ensures progress { IfOk result (λ k. 0 < k) }
        ensures within { IfOk result (λ k. k ≤ length piece.now) }
        ensures took { IfOk result (λ k. self.new.taken ≡ self.old.taken ++ take k piece.now) }
        ensures kept { OnErr result (self.new.taken ≡ self.old.taken) }
        ensures cause { IsErr result → Rose self.old.log.faults self.new.log.faults }
        ensures later { self.old.log.faults ≤ self.new.log.faults }

        // Which calls fail, how much the others take, and what becomes of the sink.
        ensures refused { IsErr result ↔ NextIsRefused self.old }
        ensures count { IfOk result (λ k. k ≡ min (length piece.now) (min self.old.piece (self.old.room - length self.old.taken))) }
        ensures ok { IfOk result (λ k. self.new ≡ record self.old { taken = self.old.taken ++ take k piece.now; log = after_call self.old.log }) }
        ensures err { OnErr result (self.new ≡ record self.old { log = after_fault self.old.log }) }
    {
        if self.calls.next_fails() || self.bytes.len() == self.room {
            self.calls.count_fault();
            return Err(Failed);
        }
        self.calls.count_call();
        let count = piece
            .len()
            .min(self.piece)
            .min(self.room - self.bytes.len());
        self.bytes.extend_from_slice(&piece[..count]).unwrap();
        Ok(count)
    }
}
