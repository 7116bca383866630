//! A cell that parks: a reader waits while a writer holds it.

ghost use Rattle.std.specs.Prelude.{◌≡◌, IfOk};

use phase_bits::Phase;
use phase_locker::{
    Attempt, Given, HolderLocker, How, LockNature, LockResult, LockerKind, Parks, PhaseLocker,
    Waiting, Who,
};
use std::alloc::{AllocError, Global};

/// How a reader waits that a writer bars, and what the writer gives when it is done.
#[derive(Clone, Copy, PartialEq, Eq, Debug)]
pub struct Barred {
    /// The answer to its call.
    pub how: How,
    /// What its row says then.
    pub waiting: Waiting,
    /// What the writer's release gives.
    pub given: Given,
}

/// Party 0 writes, and party 1 asks to read meanwhile.
pub fn read_behind_a_writer(alloc: Global) -> Result<Barred, AllocError>
    ensures how { IfOk result (λ barred. barred.how ≡ How.ParkedRead) }
    ensures waiting { IfOk result (λ barred. barred.waiting ≡ Waiting.ParkedRead) }
{
    let [writer, reader] = [0, 1].map(|party| Who { cell: 0, party });
    let mut parks = Parks::new(alloc, 1, 2)?;
    let mut locker = HolderLocker::new(LockerKind::Park, Phase::empty());
    // The rule of a call says which lock it wants at the phase that the locker has.
    let writes = |_: Phase| LockNature::Write;
    let reads = |_: Phase| LockNature::Read;
    let (got, _) = locker.lock(&mut parks, writer, LockNature::Write, &writes);
    let Attempt::Got(LockResult::Write(ticket)) = got else {
        unreachable!()
    };
    // The write lock bars the reader, which parks.
    let (barred, _) = locker.lock(&mut parks, reader, LockNature::Read, &reads);
    let Attempt::Wait(how) = barred else {
        unreachable!()
    };
    let waiting = parks.waiting(reader.party);
    // The writer publishes a phase, and may hand its lock on. The reader's next call would be `again`.
    let given = locker.release_write(&mut parks, 0, ticket, Phase::INITIALIZED);
    Ok(Barred {
        how,
        waiting,
        given,
    })
}
