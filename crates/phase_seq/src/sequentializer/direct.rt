//! Calls on the cell of one party, which run its generator or finalizer at once.

ghost use Rattle.std.specs.Prelude.{◌≡◌, ◌<◌, Some, None, true, false, IfOk};
ghost use Rattle.std.specs.Option.{ForSome, option_map, option_copied_mut};
ghost use Rattle.phase_bits.specs.Number.{number, IsKnown};
ghost use Rattle.exit_registry.specs.Registry.{cells_of, is_known};
ghost use Rattle.phase_seq.specs.Registers.{left_behind, after_asking};
ghost use Rattle.phase_seq.specs.Direct.{MayEnlist, tolerance, enlisted, reached_by, Came, is_due_at, Calls, told, told_read, told_write};

use crate::ask::{Ask, Want};
use crate::generator::{Generator, GeneratorTolerance, InitFault};
use crate::init_error::InitError;
use crate::phases::{may_generate, reached, refused};
use crate::sequentializer::LazySequentializer;
use crate::sequentializer::settling::staying;
use crate::tolerance::{shall_init, tolerance_of};
use exit_registry::ExitRegistry;
use phase_bits::Phase;
use phase_locker::{PhaseLocker, ReadTicket, UnSyncPhaseLocker, WriteTicket};

/// The run of a generator whose cell keeps these flags, or none where there are none. Answers the phase that is reached,
/// and the value made.
fn run<V, R: Generator<V>>(
    stays: Option<Phase>,
    by: &mut R,
) -> (Phase, Result<Option<V>, InitFault>)
    requires callable { R.may_call by.old }
    requires known { ForSome stays IsKnown }
    ensures came { Came R.attempts stays by.old result.1 by.new }
    ensures phase { result.0 ≡ reached_by stays result.1 }
    ensures known { IsKnown result.0 }
    ensures again { R.may_call by.new }
{
    let Some(stays) = stays else {
        return (refused(), Ok(None));
    };
    match by.attempt() {
        Ok(value) => (reached(stays, true), Ok(Some(value))),
        Err(fault) => (reached(stays, false), Err(fault)),
    }
}

impl<G: GeneratorTolerance> LazySequentializer<UnSyncPhaseLocker, G> {
    /// Tries the registration of the cell, where a call with this want is admitted and asks for a run, and the phase is
    /// empty. Answers the flags that stay where the generator then runs, or `None`.
    fn enlist(&self, want: Want, cell: u32, registry: &mut ExitRegistry) -> Option<Phase>
        requires { MayEnlist cell self.now.locker registry.old }
        ensures stays { is_due_at want (tolerance G.INIT_FAILURE G.FINAL_REGISTRATION_FAILURE) self.now.locker ≡ true → result ≡ enlisted G.FINAL_REGISTRATION_FAILURE (Some registry.old) self.now.locker.phase }
        ensures known { ForSome result IsKnown }
        ensures registry { registry.new ≡ after_asking (is_due_at want (tolerance G.INIT_FAILURE G.FINAL_REGISTRATION_FAILURE) self.now.locker) cell self.now.locker.phase registry.old }
    {
        let ask = Ask {
            want,
            fast: true,
            tol: tolerance_of::<G>(),
        };
        let phase = self.locker.phase();
        if !ask.asks_run(phase) || self.locker.is_held() {
            return None;
        }
        let stays = staying(registry, cell, phase);
        may_generate(ask.tol.leak, stays).then_some(stays)
    }

    /// Initializes the cell: where a run is due, the generator runs. It is `init` for the one that owns the generator, with
    /// `cell` and `reg` as there.
    ///
    /// # Errors
    ///
    /// As `init`.
    pub fn generate<V, R: Generator<V>>(
        &mut self,
        cell: u32,
        reg: Option<&mut ExitRegistry>,
        by: &mut R,
    ) -> Result<(Phase, Option<V>), InitError>
        requires callable { R.may_call by.old }
        requires exit { ForSome reg (λ m. MayEnlist cell self.old.locker m.now) }
        ensures calls { Calls R.attempts told Want.Init (tolerance G.INIT_FAILURE G.FINAL_REGISTRATION_FAILURE) (enlisted G.FINAL_REGISTRATION_FAILURE (option_copied_mut reg.entry) self.old.locker.phase) self.old.locker by.old result self.new.locker by.new }
        ensures registry { option_copied_mut (left_behind reg.exit) ≡ option_map (after_asking (is_due_at Want.Init (tolerance G.INIT_FAILURE G.FINAL_REGISTRATION_FAILURE) self.old.locker) cell self.old.locker.phase) (option_copied_mut reg.entry) }
        ensures again { R.may_call by.new }
        ensures running { self.new.running ≡ self.old.running }
    {
        match reg {
            None => self.init_beside(Some(Phase::empty()), by),
            Some(registry) => {
                let stays = self.enlist(Want::Init, cell, registry);
                self.init_beside(stays, by)
            }
        }
    }

    /// The same as `generate`, and reads the cell.
    ///
    /// # Errors
    ///
    /// As `init_then_read_guard`.
    pub fn generate_then_read<V, R: Generator<V>>(
        &mut self,
        cell: u32,
        reg: Option<&mut ExitRegistry>,
        by: &mut R,
    ) -> Result<(ReadTicket, Phase, Option<V>), InitError>
        requires callable { R.may_call by.old }
        requires exit { ForSome reg (λ m. MayEnlist cell self.old.locker m.now) }
        ensures calls { Calls R.attempts told_read Want.Read (tolerance G.INIT_FAILURE G.FINAL_REGISTRATION_FAILURE) (enlisted G.FINAL_REGISTRATION_FAILURE (option_copied_mut reg.entry) self.old.locker.phase) self.old.locker by.old result self.new.locker by.new }
        ensures registry { option_copied_mut (left_behind reg.exit) ≡ option_map (after_asking (is_due_at Want.Read (tolerance G.INIT_FAILURE G.FINAL_REGISTRATION_FAILURE) self.old.locker) cell self.old.locker.phase) (option_copied_mut reg.entry) }
        ensures again { R.may_call by.new }
        ensures running { self.new.running ≡ self.old.running }
    {
        match reg {
            None => self.read_beside(Some(Phase::empty()), by),
            Some(registry) => {
                let stays = self.enlist(Want::Read, cell, registry);
                self.read_beside(stays, by)
            }
        }
    }

    /// The same as `generate`, and writes the cell. The phase is that to give the lock back with.
    ///
    /// # Errors
    ///
    /// As `init_then_write_guard`.
    pub fn generate_then_write<V, R: Generator<V>>(
        &mut self,
        cell: u32,
        reg: Option<&mut ExitRegistry>,
        by: &mut R,
    ) -> Result<(WriteTicket, Phase, Option<V>), InitError>
        requires callable { R.may_call by.old }
        requires exit { ForSome reg (λ m. MayEnlist cell self.old.locker m.now) }
        ensures calls { Calls R.attempts told_write Want.Write (tolerance G.INIT_FAILURE G.FINAL_REGISTRATION_FAILURE) (enlisted G.FINAL_REGISTRATION_FAILURE (option_copied_mut reg.entry) self.old.locker.phase) self.old.locker by.old result self.new.locker by.new }
        ensures known { IfOk result (λ a. IsKnown a.1) }
        ensures registry { option_copied_mut (left_behind reg.exit) ≡ option_map (after_asking (is_due_at Want.Write (tolerance G.INIT_FAILURE G.FINAL_REGISTRATION_FAILURE) self.old.locker) cell self.old.locker.phase) (option_copied_mut reg.entry) }
        ensures again { R.may_call by.new }
        ensures running { self.new.running ≡ self.old.running }
    {
        match reg {
            None => self.write_beside(Some(Phase::empty()), by),
            Some(registry) => {
                let stays = self.enlist(Want::Write, cell, registry);
                self.write_beside(stays, by)
            }
        }
    }

    /// Initializes the cell, whose generator runs beside these flags.
    fn init_beside<V, R: Generator<V>>(
        &mut self,
        stays: Option<Phase>,
        by: &mut R,
    ) -> Result<(Phase, Option<V>), InitError>
        requires callable { R.may_call by.old }
        requires known { ForSome stays IsKnown }
        ensures calls { Calls R.attempts told Want.Init (tolerance G.INIT_FAILURE G.FINAL_REGISTRATION_FAILURE) stays self.old.locker by.old result self.new.locker by.new }
        ensures again { R.may_call by.new }
        ensures running { self.new.running ≡ self.old.running }
    {
        let phase = self.locker.phase();
        if !shall_init(tolerance_of::<G>(), phase) {
            return Ok((phase, None));
        }
        let Some(ticket) = self.locker.try_write() else {
            return Err(InitError::Borrowed);
        };
        let (phase, ran) = run(stays, by);
        self.locker.free_write(ticket, phase);
        match ran {
            Ok(value) => Ok((phase, value)),
            Err(InitFault) => Err(InitError::Failed),
        }
    }

    /// Initializes the cell, whose generator runs beside these flags, and reads it.
    fn read_beside<V, R: Generator<V>>(
        &mut self,
        stays: Option<Phase>,
        by: &mut R,
    ) -> Result<(ReadTicket, Phase, Option<V>), InitError>
        requires callable { R.may_call by.old }
        requires known { ForSome stays IsKnown }
        ensures calls { Calls R.attempts told_read Want.Read (tolerance G.INIT_FAILURE G.FINAL_REGISTRATION_FAILURE) stays self.old.locker by.old result self.new.locker by.new }
        ensures again { R.may_call by.new }
        ensures running { self.new.running ≡ self.old.running }
    {
        let phase = self.locker.phase();
        if !shall_init(tolerance_of::<G>(), phase) {
            return match self.locker.try_read() {
                Some(ticket) => Ok((ticket, phase, None)),
                None => Err(InitError::Borrowed),
            };
        }
        let Some(ticket) = self.locker.try_write() else {
            return Err(InitError::Borrowed);
        };
        let (phase, ran) = run(stays, by);
        match ran {
            Ok(value) => Ok((self.locker.turn_read(ticket, phase), phase, value)),
            Err(InitFault) => {
                self.locker.free_write(ticket, phase);
                Err(InitError::Failed)
            }
        }
    }

    /// Initializes the cell, whose generator runs beside these flags, and writes it.
    fn write_beside<V, R: Generator<V>>(
        &mut self,
        stays: Option<Phase>,
        by: &mut R,
    ) -> Result<(WriteTicket, Phase, Option<V>), InitError>
        requires callable { R.may_call by.old }
        requires known { ForSome stays IsKnown }
        ensures calls { Calls R.attempts told_write Want.Write (tolerance G.INIT_FAILURE G.FINAL_REGISTRATION_FAILURE) stays self.old.locker by.old result self.new.locker by.new }
        ensures known { IfOk result (λ a. IsKnown a.1) }
        ensures again { R.may_call by.new }
        ensures running { self.new.running ≡ self.old.running }
    {
        let phase = self.locker.phase();
        let Some(ticket) = self.locker.try_write() else {
            return Err(InitError::Borrowed);
        };
        if !shall_init(tolerance_of::<G>(), phase) {
            return Ok((ticket, phase, None));
        }
        let (phase, ran) = run(stays, by);
        match ran {
            Ok(value) => Ok((ticket, phase, value)),
            Err(InitFault) => {
                self.locker.free_write(ticket, phase);
                Err(InitError::Failed)
            }
        }
    }
}
