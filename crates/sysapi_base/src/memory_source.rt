ghost use Rattle.std.specs.Prelude.{◌≡◌, ◌<◌, ◌≤◌, ◌↔◌, [], length, min, IsErr, IfOk, IsTrue};
ghost use Rattle.std.specs.Io.KnownBytes.{ReadConsumes};
ghost use Rattle.sysapi_base.specs.Outside.{Passes};
ghost use Rattle.sysapi_base.specs.Failing.{failing_at, is_failing, after_call};
ghost use Rattle.sysapi_base.specs.InMemory.{source_left, source_faults, IsSourceSteady};

use crate::error::Failed;
use crate::failing::FailingCalls;
use crate::source::Source;
use std::alloc::Global;
use std::marker::Model;

/// A source of bytes in memory. It tells them, and fails where it is told to.
#[derive(Debug, Drop)]
pub struct MemorySource {
    bytes: Vec<u8>,
    at: usize,
    most: usize,
    calls: FailingCalls,
}

impl Model for MemorySource {
    ghost use Rattle.std.specs.Prelude.{◌<◌, ◌≤◌, drop, length};
    ghost use Rattle.sysapi_base.specs.InMemory.{Giving};

    ghost Value = { Giving };

    ghost view = { λ a. record { left = drop a.at a.bytes.items; most = a.most; calls = a.calls } };

    ghost invariant = { λ a. (a.at ≤ length a.bytes.items) × (0 < a.most) };
}

impl MemorySource {
    /// A source of these bytes, which never fails.
    pub fn new(alloc: Global, bytes: Vec<u8>) -> MemorySource
        ensures { result ≡ record { left = bytes.items; most = usize.MAX; calls = failing_at [] } }
    {
        MemorySource {
            bytes,
            at: 0,
            most: usize::MAX,
            calls: FailingCalls::none(alloc),
        }
    }

    /// A source of these bytes, whose reads of these numbers, from 0 on, fail.
    pub fn failing(bytes: Vec<u8>, calls: Vec<u64>) -> MemorySource
        ensures { result ≡ record { left = bytes.items; most = usize.MAX; calls = failing_at calls.items } }
    {
        MemorySource {
            bytes,
            at: 0,
            most: usize::MAX,
            calls: FailingCalls::at(calls),
        }
    }

    /// The same source, which gives at most so many bytes in a read.
    pub fn in_pieces(self, most: usize) -> MemorySource
        requires { 0 < most }
        ensures { result ≡ record self { most = most } }
    {
        MemorySource {
            bytes: self.bytes,
            at: self.at,
            most,
            calls: self.calls,
        }
    }
}

impl Source for MemorySource {
    ghost use Rattle.sysapi_base.specs.InMemory.{source_left, source_faults, IsSourceSteady};

    ghost left = { source_left };

    ghost faults = { source_faults };

    ghost IsSteady = { IsSourceSteady };

    fn read(&mut self, into: &mut [u8]) -> Result<usize, Failed>
        ensures bound { IfOk result (λ n. n ≤ length into.new) }
        ensures bytes { ReadConsumes (source_left self.old) (source_left self.new) result into.new }
        ensures passes { Passes source_faults IsSourceSteady self.old self.new result }
        ensures fails { IsErr result ↔ IsTrue (is_failing self.old.calls) }
        ensures whole { IfOk result (λ n. n ≡ min (length into.old) (min self.old.most (length self.old.left))) }
        ensures calls { self.new.calls ≡ after_call self.old.calls }
        ensures most { self.new.most ≡ self.old.most }
    {
        if self.calls.meets() {
            return Err(Failed);
        }
        let n = into.len().min(self.most).min(self.bytes.len() - self.at);
        into[..n].copy_from_slice(&self.bytes[self.at..self.at + n]);
        self.at += n;
        Ok(n)
    }
}
