//! A source and a sink over memory, which fail at chosen calls.

ghost use Rattle.std.specs.Prelude.{◌≡◌, ◌<◌, ◌≤◌, [], length, IfOk, OnErr, Some, vec_len};
ghost use Rattle.phase_run.specs.Memory.{IsTaken, IsRefused, IsGiven, IsTurnedAway};

use crate::failed::Failed;
use crate::sink::Sink;
use crate::source::Source;
use std::alloc::{AllocError, Global};
use std::marker::Model;

/// A source over bytes. Its calls are numbered from 0, and those that are listed fail.
#[derive(Drop)]
pub struct MemSource {
    bytes: Vec<u8>,
    at: usize,
    fails: Vec<u64>,
    calls: u64,
    faults: u64,
}

impl Model for MemSource {
    ghost use Rattle.std.specs.Prelude.{◌≤◌, vec_len, drop};
    ghost use Rattle.phase_run.specs.Memory.{Input};

    ghost Value = { Input };

    ghost view = { λ s. record { left = drop s.at s.bytes.items; fails = s.fails.items; calls = s.calls; faults = s.faults } };

    ghost invariant = { λ s. s.at ≤ vec_len s.bytes };
}

impl MemSource {
    /// A source of these bytes, whose calls with these numbers fail.
    pub fn new(bytes: Vec<u8>, fails: Vec<u64>) -> MemSource
        ensures left { result.left ≡ bytes.items }
        ensures fails { result.fails ≡ fails.items }
        ensures calls { result.calls ≡ 0 }
        ensures faults { result.faults ≡ 0 }
    {
        MemSource {
            bytes,
            at: 0,
            fails,
            calls: 0,
            faults: 0,
        }
    }
}

impl Source for MemSource {
    ghost remaining = { λ s. Some s.left };

    ghost faults = { λ s. s.faults };

    fn take(&mut self, buf: &mut [u8]) -> Result<usize, Failed>
        requires { 0 < length buf.old }
        ensures taken { IfOk result (λ n. IsTaken self.old self.new (length buf.old) n buf.new) }
        ensures refused { OnErr result (IsRefused self.old self.new) }
        ensures steady { self.old.faults ≤ self.new.faults }
    {
        let is_listed = self.fails.contains(&self.calls);
        self.calls = self.calls.saturating_add(1);
        if is_listed {
            self.faults = self.faults.saturating_add(1);
            return Err(Failed);
        }
        let n = buf.len().min(self.bytes.len() - self.at);
        buf[..n].copy_from_slice(&self.bytes[self.at..self.at + n]);
        self.at += n;
        Ok(n)
    }
}

/// A sink into memory, with room for so many bytes. Its calls are numbered from 0. Those that are listed fail, and those
/// that come once the room is used up.
#[derive(Drop)]
pub struct MemSink {
    given: Vec<u8>,
    room: usize,
    fails: Vec<u64>,
    calls: u64,
    faults: u64,
}

impl Model for MemSink {
    ghost use Rattle.std.specs.Prelude.{◌≤◌, vec_len, vec_capacity};
    ghost use Rattle.phase_run.specs.Memory.{Output};

    ghost Value = { Output };

    ghost view = { λ s. record { given = s.given.items; room = s.room; fails = s.fails.items; calls = s.calls; faults = s.faults } };

    ghost invariant = { λ s. (vec_len s.given ≤ s.room) × (s.room ≤ vec_capacity s.given) };
}

impl MemSink {
    /// A sink with this much room, whose calls with these numbers fail. The room is taken at once, and an error says that
    /// there is not so much.
    pub fn new(alloc: Global, room: usize, fails: Vec<u64>) -> Result<MemSink, AllocError>
        ensures given { IfOk result (λ s. s.given ≡ []) }
        ensures room { IfOk result (λ s. s.room ≡ room) }
        ensures fails { IfOk result (λ s. s.fails ≡ fails.items) }
        ensures calls { IfOk result (λ s. s.calls ≡ 0) }
        ensures faults { IfOk result (λ s. s.faults ≡ 0) }
    {
        let given = Vec::with_capacity(alloc, room)?;
        Ok(MemSink {
            given,
            room,
            fails,
            calls: 0,
            faults: 0,
        })
    }

    /// The bytes that it was given.
    pub fn given(&self) -> &[u8]
        ensures { result.now ≡ self.now.given }
    {
        &self.given
    }
}

impl Sink for MemSink {
    ghost given = { λ s. Some s.given };

    ghost faults = { λ s. s.faults };

    fn give(&mut self, piece: &[u8]) -> Result<usize, Failed>
        requires { 0 < length piece.now }
        ensures given { IfOk result (λ n. IsGiven self.old self.new piece.now n) }
        ensures refused { OnErr result (IsTurnedAway self.old self.new) }
        ensures steady { self.old.faults ≤ self.new.faults }
    {
        let is_listed = self.fails.contains(&self.calls);
        let n = piece.len().min(self.room - self.given.len());
        self.calls = self.calls.saturating_add(1);
        if is_listed || n == 0 {
            self.faults = self.faults.saturating_add(1);
            return Err(Failed);
        }
        self.given.extend_from_slice(&piece[..n]).unwrap();
        Ok(n)
    }
}
