ghost use Rattle.std.specs.Prelude.{◌≡◌, ◌+◌, ◌<◌, ◌==◌, not, filter, [], length, IsTrue, IsFalse};
ghost use Rattle.sysapi_base.specs.Failing.{failing_at, is_failing, after_call};

use std::alloc::Global;
use std::marker::Model;

/// Which calls of an object in memory are to fail, and how many have failed.
#[derive(Debug, Drop)]
pub struct FailingCalls {
    next: u64,
    failed: u64,
    left: Vec<u64>,
}

impl Model for FailingCalls {
    ghost use Rattle.std.specs.Prelude.{◌+◌, ◌<◌, ◌^◌, length};
    ghost use Rattle.sysapi_base.specs.Failing.{Calls};

    ghost Value = { Calls };

    ghost view = { λ a. record { next = a.next; failed = a.failed; left = a.left.items } };

    ghost invariant = { λ a. a.failed + length a.left.items < 2 ^ 64 };
}

impl FailingCalls {
    /// No call is to fail.
    pub fn none(alloc: Global) -> FailingCalls
        ensures { result ≡ failing_at [] }
    {
        FailingCalls::at(Vec::new(alloc))
    }

    /// The calls of these numbers are to fail, counted from 0.
    pub fn at(calls: Vec<u64>) -> FailingCalls
        ensures { result ≡ failing_at calls.items }
    {
        FailingCalls {
            next: 0,
            failed: 0,
            left: calls,
        }
    }

    /// Whether the next call fails, which is then the call before. It takes no memory.
    pub fn meets(&mut self) -> bool
        ensures exact { result ≡ is_failing self.old }
        ensures after { self.new ≡ after_call self.old }
        ensures met { IsTrue result → self.new.failed ≡ self.old.failed + 1 }
        ensures not_met { IsFalse result → self.new.failed ≡ self.old.failed }
        ensures steady { self.old.left ≡ [] → IsFalse result × (self.new.left ≡ []) }
        ensures fewer { IsTrue result → length self.new.left < length self.old.left }
    {
        let now = self.next;
        self.next = now.saturating_add(1);
        let fails = self.left.contains(&now);
        if fails {
            remove_all(&mut self.left, now);
            self.failed += 1;
        }
        fails
    }
}

fn remove_all(numbers: &mut Vec<u64>, number: u64)
    ensures { numbers.new.items ≡ filter (λ n. not (n == number)) numbers.old.items }
{
    numbers.retain(|n| *n != number);
}
