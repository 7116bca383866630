//! A caller of each kind of lazies: a log, a counter, a queue and a setting.

ghost use Rattle.std.specs.Prelude.{◌≡◌, ℕ, Some, Ok, IfOk};
ghost use Rattle.phase_bits.specs.declared.phase.Phase.{Phase};
ghost use Rattle.lazy_cells.specs.Cells.{MayBeRegistered};
ghost use Rattle.lazy_cells.specs.Locked.{MayEnlist};

use exit_registry::ExitRegistry;
use lazy_cells::{Content, GenericLockedLazy, IsPrimed, LazyFinalize, NoExit, WithExit};
use phase_seq::{Generator, InitError};

/// The file to which a log is written, of a `LazyFinalize`: it is opened on first use, and the exit writes the log out.
///
/// # Errors
///
/// `Failed` where it could not be opened, `Access` where the exit was over already.
pub fn log_file<G: Generator<u64>>(
    log: &mut LazyFinalize<u64, G>,
    registry: &mut ExitRegistry,
) -> Result<u64, InitError>
    requires callable { G.may_call log.old.generator }
    requires exit { MayBeRegistered log.old.marker.cell log.old.phase registry.old }
    ensures known { (n : ℕ) → log.old.value ≡ Some n → result ≡ Ok n }
{
    if let Ok(file) = LazyFinalize::try_get(log) {
        return Ok(*file);
    }
    match LazyFinalize::get(log, registry) {
        Ok(file) => Ok(*file),
        Err(error) => Err(error),
    }
}

/// Counts one more, in a `LockedLazy` or a `PrimedLockedLazy`: the first to count makes the counter.
///
/// # Errors
///
/// `Borrowed` where a ticket is open, `Failed` where the counter could not be made, `Access` where that failed before and is
/// not tried again.
pub fn count<G: Generator<u64>, C: Content>(
    counter: &mut GenericLockedLazy<u64, G, NoExit<C>>,
) -> Result<u64, InitError>
    requires { G.may_call counter.old.generator }
    ensures counted { IfOk result (λ n. counter.new.value ≡ Some n) }
{
    let mut ticket = counter.write()?;
    let counted = counter.look_write(&ticket).saturating_add(1);
    counter.set(&mut ticket, counted);
    counter.release_write(ticket);
    Ok(counted)
}

/// Counts one more to be sent by the exit, in a `LockedLazyFinalize`, a `LockedLazyDroped` or a `PrimedLockedLazyDroped`: the
/// first to count registers the queue and makes it.
///
/// # Errors
///
/// As `count`, and `Access` where the exit was there.
pub fn enqueue<G: Generator<u64>, C: Content>(
    queue: &mut GenericLockedLazy<u64, G, WithExit<C>>,
    registry: &mut ExitRegistry,
) -> Result<u64, InitError>
    requires callable { G.may_call queue.old.generator }
    requires exit { MayEnlist queue.old.marker.cell queue.old registry.old }
    ensures queued { IfOk result (λ n. queue.new.value ≡ Some n) }
{
    let mut ticket = queue.write(registry)?;
    let queued = queue.look_write(&ticket).saturating_add(1);
    queue.set(&mut ticket, queued);
    queue.release_write(ticket);
    Ok(queued)
}

/// What a setting is now, of a `PrimedLockedLazy` or a `PrimedLockedLazyDroped`: its default where it was not read yet, and
/// what the exit left where that was there.
///
/// # Errors
///
/// `Borrowed` where it is written.
pub fn setting<G, P: IsPrimed>(setting: &mut GenericLockedLazy<u64, G, P>) -> Result<u64, InitError>
    ensures shown { IfOk result (λ n. setting.new.value ≡ Some n) }
    ensures phase { setting.new.phase ≡ setting.old.phase }
{
    let ticket = match setting.primed_read_non_initializing()? {
        Ok(ticket) | Err(ticket) => ticket,
    };
    let now = *setting.look(&ticket);
    setting.release(ticket);
    Ok(now)
}

#[cfg(test)]
mod tests {
    use super::{count, setting};
    use lazy_cells::{LockedLazy, PrimedLockedLazy};
    use phase_seq::InitFault;

    #[test]
    fn each_is_made_by_its_first_user(rt: HostRuntime) {
        let mut counter = LockedLazy::from_generator(|| -> Result<u64, InitFault> { Ok(4) });
        assert_eq!(rt; count(&mut counter), Ok(5));
        let mut level = PrimedLockedLazy::from_generator(3, || -> Result<u64, InitFault> { Ok(7) });
        assert_eq!(rt; setting(&mut level), Ok(3));
        assert_eq!(rt; count(&mut level), Ok(8));
        assert_eq!(rt; setting(&mut level), Ok(8));
    }
}
