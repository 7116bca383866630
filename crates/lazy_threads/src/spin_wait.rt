//! How a caller waits a short time without sleeping.

ghost use Rattle.std.specs.Prelude.{◌≡◌, ◌+◌, ◌<◌, ◌≤◌, min, nat_lt, true};

use std::hint::spin_loop;
use std::thread;

/// How many calls spin or yield, until the caller is told to wait by other means.
const MOST_CALLS: u32 = 10;
/// How many of the first calls of `spin` only spin.
const SPINNING_CALLS: u32 = 3;

/// A count of waits, each longer than the one before. It is static_init's `SpinWait`.
#[derive(Drop)]
pub struct SpinWait {
    /// How many calls were made since it was new or reset, 10 at the most.
    calls: u32,
    ghost few: { calls ≤ 10 },
}

impl SpinWait {
    /// No call was made.
    pub fn new() -> SpinWait
        ensures { result.calls ≡ 0 }
    {
        SpinWait { calls: 0 }
    }

    /// Forgets the calls.
    pub fn reset(&mut self)
        ensures { self.new.calls ≡ 0 }
    {
        self.calls = 0;
    }

    /// Spins, and from the fourth call on yields the processor. Answers true exactly where fewer than ten calls of `spin` and
    /// `spin_no_yield` were made since it was new or reset; else it returns at once.
    pub fn spin(&mut self) -> bool
        ensures few { result ≡ nat_lt self.old.calls 10 }
        ensures calls { self.new.calls ≡ min (self.old.calls + 1) 10 }
    {
        if self.calls == MOST_CALLS {
            return false;
        }
        self.calls += 1;
        if self.calls <= SPINNING_CALLS {
            relax(self.calls);
        } else {
            thread::yield_now();
        }
        true
    }

    /// Spins and never yields. Answers true.
    pub fn spin_no_yield(&mut self) -> bool
        ensures spins { result ≡ true }
        ensures calls { self.new.calls ≡ min (self.old.calls + 1) 10 }
    {
        if self.calls < MOST_CALLS {
            self.calls += 1;
        }
        relax(self.calls);
        true
    }

    /// Spins as `spin` does, and yields where that no longer waits.
    pub(crate) fn spin_or_yield(&mut self) {
        if !self.spin() {
            thread::yield_now();
        }
    }
}

/// Tells the processor 2^n times that this is a spin loop.
fn relax(n: u32)
    requires { n ≤ 10 }
{
    for _ in 0..1u32 << n {
        spin_loop();
    }
}
