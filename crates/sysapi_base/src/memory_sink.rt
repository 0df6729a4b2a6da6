ghost use Rattle.std.specs.Prelude.{◌≡◌, ◌<◌, ◌≤◌, ◌↔◌, ◌++◌, [], length, min, take, IsErr, IfOk, IfSome, IsTrue, Some, None, option_map};
ghost use Rattle.sysapi_base.specs.Outside.{Passes, TakesSome, Writes};
ghost use Rattle.sysapi_base.specs.Failing.{failing_at, is_failing, after_call};
ghost use Rattle.sysapi_base.specs.InMemory.{sink_taken, sink_faults, IsSinkSteady};

use crate::error::Failed;
use crate::failing::FailingCalls;
use crate::sink::Sink;
use std::alloc::Global;
use std::marker::Model;

/// A sink in memory, which keeps and tells what it takes, and fails where it is told to. Where no memory is found for a write
/// it takes the bytes all the same, and from then on it tells nothing.
#[derive(Debug, Drop)]
pub struct MemorySink {
    bytes: Option<Vec<u8>>,
    most: usize,
    calls: FailingCalls,
}

impl Model for MemorySink {
    ghost use Rattle.std.specs.Prelude.{◌<◌, option_map};
    ghost use Rattle.sysapi_base.specs.InMemory.{Taking};

    ghost Value = { Taking };

    ghost view = { λ a. record { taken = option_map (λ v. v.items) a.bytes; most = a.most; calls = a.calls } };

    ghost invariant = { λ a. 0 < a.most };
}

impl MemorySink {
    /// An empty sink, which never fails.
    pub fn new(alloc: Global) -> MemorySink
        ensures { result ≡ record { taken = Some []; most = usize.MAX; calls = failing_at [] } }
    {
        MemorySink {
            bytes: Some(Vec::new(alloc)),
            most: usize::MAX,
            calls: FailingCalls::none(alloc),
        }
    }

    /// An empty sink, whose writes of these numbers, from 0 on, fail.
    pub fn failing(alloc: Global, calls: Vec<u64>) -> MemorySink
        ensures { result ≡ record { taken = Some []; most = usize.MAX; calls = failing_at calls.items } }
    {
        MemorySink {
            bytes: Some(Vec::new(alloc)),
            most: usize::MAX,
            calls: FailingCalls::at(calls),
        }
    }

    /// The same sink, which takes at most so many bytes in a write.
    pub fn in_pieces(self, most: usize) -> MemorySink
        requires { 0 < most }
        ensures { result ≡ record self { most = most } }
    {
        MemorySink {
            bytes: self.bytes,
            most,
            calls: self.calls,
        }
    }

    /// The bytes taken. `None` from the first write on for which no memory was found.
    pub fn bytes(&self) -> Option<&[u8]>
        ensures { option_map (λ b. b.now) result ≡ self.now.taken }
    {
        match &self.bytes {
            Some(bytes) => Some(bytes.as_slice()),
            None => None,
        }
    }
}

impl Sink for MemorySink {
    ghost use Rattle.sysapi_base.specs.InMemory.{sink_taken, sink_faults, IsSinkSteady};

    ghost taken = { sink_taken };

    ghost faults = { sink_faults };

    ghost IsSteady = { IsSinkSteady };

    fn write(&mut self, from: &[u8]) -> Result<usize, Failed>
        ensures bound { IfOk result (λ n. n ≤ length from.now) }
        ensures some { TakesSome from.now result }
        ensures bytes { Writes (sink_taken self.old) (sink_taken self.new) result from.now }
        ensures passes { Passes sink_faults IsSinkSteady self.old self.new result }
        ensures fails { IsErr result ↔ IsTrue (is_failing self.old.calls) }
        ensures whole { IfOk result (λ n. n ≡ min (length from.now) self.old.most) }
        ensures calls { self.new.calls ≡ after_call self.old.calls }
        ensures most { self.new.most ≡ self.old.most }
    {
        if self.calls.meets() {
            return Err(Failed);
        }
        let n = from.len().min(self.most);
        keep(&mut self.bytes, &from[..n]);
        Ok(n)
    }
}

// Keeps these bytes too, or nothing more where no memory is found for them.
fn keep(kept: &mut Option<Vec<u8>>, piece: &[u8])
    ensures bytes { IfSome kept.new (λ new. IfSome kept.old (λ old. new.items ≡ old.items ++ piece.now)) }
    ensures none { kept.old ≡ None → kept.new ≡ None }
{
    let Some(bytes) = kept else {
        return;
    };
    if bytes.extend_from_slice(piece).is_err() {
        *kept = None;
    }
}
