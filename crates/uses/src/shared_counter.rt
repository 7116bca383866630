//! Two workers share one counter behind the lock word of a cell: each enters to write, adds one by a load and a store, and
//! leaves. How many sections the workers recorded is proved; that the counter is the same number is tested.

ghost use Rattle.std.specs.Prelude.{◌≡◌, ◌*◌, IfOk};
ghost use Rattle.uses.specs.Counting.{HasRecorded};

use lazy_threads::{CellSeat, SyncTable};
use phase_bits::Phase;
use phase_locker::{LockNature, LockResult};
use std::alloc::{AllocError, Global};
use std::sync::Wait;
use std::sync::atomic::AtomicU64;
use std::sync::atomic::Ordering::SeqCst;
use std::thread::{Threads, join};

/// Adds one to the counter so many times, each time in a section of its own.
fn add<R: Wait>(
    rt: &R,
    word: &SyncTable,
    mut seat: CellSeat,
    count: &AtomicU64,
    turns: u32,
) -> CellSeat
    requires { HasRecorded word.now 0 seat }
    ensures { HasRecorded word.now turns result }
{
    let write = |_: Phase| LockNature::Write;
    for turn in 0..turns {
        if let LockResult::Write(()) = word.enter(rt, &mut seat, &write) {
            count.store(count.load(SeqCst).wrapping_add(1), SeqCst);
            word.leave_write(&mut seat, Phase::INITIALIZED, true, 0);
        }
    }
    seat
}

/// The counter after two workers have each added to it so many times, and how many sections they recorded.
pub fn count_together<R: Threads + Wait + Sync>(
    rt: &R,
    alloc: Global,
    turns: u32,
) -> Result<(u64, u64), AllocError>
    ensures { IfOk result (λ counted. counted.1 ≡ 2 * turns) }
{
    let (word, mut seat) = SyncTable::new(alloc)?;
    let (other, shared, count) = (word.split(&mut seat), &word, &AtomicU64::new(0));
    let (mut seat, other) = join(
        rt,
        move || -> CellSeat
            requires { HasRecorded shared.now 0 seat }
            ensures { HasRecorded shared.entry.now turns result }
        { add(rt, shared, seat, count, turns) },
        move || -> CellSeat
            requires { HasRecorded shared.now 0 other }
            ensures { HasRecorded shared.entry.now turns result }
        { add(rt, shared, other, count, turns) },
    );
    word.join(&mut seat, other);
    Ok((count.load(SeqCst), seat.recorded()))
}
