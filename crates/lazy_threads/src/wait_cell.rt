//! A count that callers wait on.

ghost use Rattle.std.specs.Prelude.{◌≡◌, ◌≢◌, ◌+◌, ◌%◌, ◌^◌};

use std::sync::{Condvar, Mutex, Wait};

/// A count of wakes under a lock, for a caller's own waits: no call of `SyncTable` waits on it or wakes it. Who is to wait
/// asks for the count first, then looks whether there is need to wait, and waits until the count has changed.
#[derive(Drop)]
pub struct WaitCell {
    wakes: Mutex<u64>,
    woken: Condvar,
}

impl WaitCell {
    /// A count of 0.
    pub fn new() -> WaitCell {
        WaitCell {
            wakes: Mutex::new(0),
            woken: Condvar::new(),
        }
    }

    /// How many wakes there were, modulo 2^64.
    pub fn count<R: Wait>(&self, rt: &R) -> u64 {
        *self.wakes.lock(rt)
    }

    /// Waits until the count is another than `seen`, and answers it.
    pub fn wait<R: Wait>(&self, rt: &R, seen: u64) -> u64
        ensures { result ≢ seen }
    {
        let wakes = self
            .woken
            .wait_while(rt, self.wakes.lock(rt), |count| *count == seen);
        *wakes
    }

    /// Adds one to the count, and wakes all that wait.
    pub fn wake<R: Wait>(&self, rt: &R) {
        let mut wakes = self.wakes.lock(rt);
        *wakes = one_more(*wakes);
        self.woken.notify_all();
    }
}

/// The count after one more wake. After the greatest `u64` comes 0.
fn one_more(wakes: u64) -> u64
    ensures { result ≡ (wakes + 1) % 2 ^ 64 }
{
    wakes.wrapping_add(1)
}
