//! A list of cells that a program starts.

ghost use Rattle.std.specs.Prelude.{◌<◌, length};
ghost use Rattle.lazy_cells.specs.Startup.{MayStart, Starts};
ghost use Rattle.lazy_cells.specs.StartAll.{At, Each, AreDistinct, StartsAll, StartsAt};

use crate::lesser::Lesser;
use exit_registry::ExitRegistry;
use phase_bits::Phase;
use phase_seq::InitError;

/// The start of this cell.
fn start_of(cell: &mut Box<dyn Lesser>, reg: &mut ExitRegistry) -> Result<Phase, InitError>
    requires callable { may_run cell.old }
    requires exit { MayStart (standing cell.old) reg.old }
    ensures starts { Starts (standing cell.old) result (standing cell.new) reg.old reg.new }
    ensures again { may_run cell.new }
{
    cell.start(reg)
}

/// The start of the cell at this place.
fn start_at(
    cells: &mut [Box<dyn Lesser>],
    index: usize,
    reg: &mut ExitRegistry,
) -> Result<Phase, InitError>
    requires inside { index < length cells.old }
    requires callable { At (λ b. may_run b) index cells.old }
    requires exit { At (λ b. MayStart (standing b) reg.old) index cells.old }
    ensures { StartsAt (λ b. standing b) (λ b. may_run b) index cells.old result cells.new reg.old reg.new }
{
    start_of(&mut cells[index], reg)
}

/// Starts the cells, in order, and stops at the first that fails. Each cell must meet what its `start` needs, and those
/// that are registered for the exit must bear distinct numbers.
///
/// # Errors
///
/// The place of the cell whose start failed, with its error. The cells before it are started, those after it untouched.
pub fn start_all(
    cells: &mut [Box<dyn Lesser>],
    reg: &mut ExitRegistry,
) -> Result<(), (usize, InitError)>
    requires callable { Each (λ b. may_run b) cells.old }
    requires exit { Each (λ b. MayStart (standing b) reg.old) cells.old }
    requires distinct { AreDistinct (λ b. standing b) (λ b. may_run b) cells.old }
    ensures { StartsAll (λ b. standing b) (λ b. may_run b) cells.old result cells.new reg.old reg.new }
{
    for index in 0..cells.len() {
        if let Err(error) = start_at(cells, index, reg) {
            return Err((index, error));
        }
    }
    Ok(())
}
