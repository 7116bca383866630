//! Calls on the cell of one party that take a closure to run. What the closure promises is what comes: one that promises
//! a value never leads to `Failed`, one that promises a fault never to a value.

ghost use Rattle.std.specs.Prelude.{◌≡◌, Some};
ghost use Rattle.std.specs.Option.{ForSome, option_map, option_copied_mut};
ghost use Rattle.phase_locker.specs.Natures.{MayJudge, IsRule, Tries};
ghost use Rattle.phase_locker.specs.Fits.{IsIdle};
ghost use Rattle.phase_bits.specs.Records.{admit_write};
ghost use Rattle.phase_seq.specs.declared.ask.Want.{Want};
ghost use Rattle.phase_seq.specs.Registers.{left_behind, after_asking};
ghost use Rattle.phase_seq.specs.Direct.{MayEnlist, tolerance, enlisted, is_due_at, Calls, by_call, unless_borrowed, TriesCall, CallsUnique, Finalizes, told, told_read, told_write};

use crate::finalizer::FinalFault;
use crate::generator::{GeneratorTolerance, InitFault};
use crate::init_error::InitError;
use crate::once::OnceGenerator;
use crate::phases::finalized;
use crate::sequentializer::LazySequentializer;
use exit_registry::{ExitRegistry, Turn};
use phase_bits::Phase;
use phase_locker::{
    LockNature, LockResult, PhaseLocker, ReadTicket, UnSyncPhaseLocker, WriteTicket,
};

/// The answer of a call that answers nothing where it is barred.
fn tried<A>(answer: Result<A, InitError>) -> Option<Result<A, InitError>>
    ensures { result ≡ unless_borrowed answer }
{
    match answer {
        Err(InitError::Borrowed) => None,
        said => Some(said),
    }
}

impl<G: GeneratorTolerance> LazySequentializer<UnSyncPhaseLocker, G> {
    /// Initializes the cell: where a run is due, the closure runs, and the value that it made is handed back. No lock is
    /// left.
    ///
    /// `reg` is the registry of a cell that is registered for the exit, and `cell` its number there; it is `None` for a
    /// cell that is not, and then the number says nothing. The cell is registered before the closure runs, where its
    /// phase is empty. Where it can't be, and does not put up with that, no closure runs, and the phase says so.
    ///
    /// # Errors
    ///
    /// `Borrowed` exactly where the lock that the call wants is barred, and then nothing changes. `Failed` exactly where
    /// the closure failed in this call; the lock is given back with the phase that says so.
    pub fn init<V, F: FnOnce() -> Result<V, InitFault> + Drop>(
        &mut self,
        cell: u32,
        reg: Option<&mut ExitRegistry>,
        run: F,
    ) -> Result<(Phase, Option<V>), InitError>
        requires callable { F.IsAlwaysCallable run }
        requires exit { ForSome reg (λ m. MayEnlist cell self.old.locker m.now) }
        ensures calls { Calls (by_call F.post) told Want.Init (tolerance G.INIT_FAILURE G.FINAL_REGISTRATION_FAILURE) (enlisted G.FINAL_REGISTRATION_FAILURE (option_copied_mut reg.entry) self.old.locker.phase) self.old.locker run result self.new.locker run }
        ensures registry { option_copied_mut (left_behind reg.exit) ≡ option_map (after_asking (is_due_at Want.Init (tolerance G.INIT_FAILURE G.FINAL_REGISTRATION_FAILURE) self.old.locker) cell self.old.locker.phase) (option_copied_mut reg.entry) }
        ensures running { self.new.running ≡ self.old.running }
    {
        let mut once = OnceGenerator::new(run);
        match reg {
            None => self.generate(cell, None, &mut once),
            Some(registry) => self.generate(cell, Some(registry), &mut once),
        }
    }

    /// The same, and reads the cell.
    ///
    /// # Errors
    ///
    /// `Borrowed` exactly where the lock that the call wants is barred, and then nothing changes. `Failed` exactly where
    /// the closure failed in this call; the lock is given back with the phase that says so.
    pub fn init_then_read_guard<V, F: FnOnce() -> Result<V, InitFault> + Drop>(
        &mut self,
        cell: u32,
        reg: Option<&mut ExitRegistry>,
        run: F,
    ) -> Result<(ReadTicket, Phase, Option<V>), InitError>
        requires callable { F.IsAlwaysCallable run }
        requires exit { ForSome reg (λ m. MayEnlist cell self.old.locker m.now) }
        ensures calls { Calls (by_call F.post) told_read Want.Read (tolerance G.INIT_FAILURE G.FINAL_REGISTRATION_FAILURE) (enlisted G.FINAL_REGISTRATION_FAILURE (option_copied_mut reg.entry) self.old.locker.phase) self.old.locker run result self.new.locker run }
        ensures registry { option_copied_mut (left_behind reg.exit) ≡ option_map (after_asking (is_due_at Want.Read (tolerance G.INIT_FAILURE G.FINAL_REGISTRATION_FAILURE) self.old.locker) cell self.old.locker.phase) (option_copied_mut reg.entry) }
        ensures running { self.new.running ≡ self.old.running }
    {
        let mut once = OnceGenerator::new(run);
        match reg {
            None => self.generate_then_read(cell, None, &mut once),
            Some(registry) => self.generate_then_read(cell, Some(registry), &mut once),
        }
    }

    /// The same, and writes the cell. The phase is that to give the lock back with.
    ///
    /// # Errors
    ///
    /// `Borrowed` exactly where the lock that the call wants is barred, and then nothing changes. `Failed` exactly where
    /// the closure failed in this call; the lock is given back with the phase that says so.
    pub fn init_then_write_guard<V, F: FnOnce() -> Result<V, InitFault> + Drop>(
        &mut self,
        cell: u32,
        reg: Option<&mut ExitRegistry>,
        run: F,
    ) -> Result<(WriteTicket, Phase, Option<V>), InitError>
        requires callable { F.IsAlwaysCallable run }
        requires exit { ForSome reg (λ m. MayEnlist cell self.old.locker m.now) }
        ensures calls { Calls (by_call F.post) told_write Want.Write (tolerance G.INIT_FAILURE G.FINAL_REGISTRATION_FAILURE) (enlisted G.FINAL_REGISTRATION_FAILURE (option_copied_mut reg.entry) self.old.locker.phase) self.old.locker run result self.new.locker run }
        ensures registry { option_copied_mut (left_behind reg.exit) ≡ option_map (after_asking (is_due_at Want.Write (tolerance G.INIT_FAILURE G.FINAL_REGISTRATION_FAILURE) self.old.locker) cell self.old.locker.phase) (option_copied_mut reg.entry) }
        ensures running { self.new.running ≡ self.old.running }
    {
        let mut once = OnceGenerator::new(run);
        match reg {
            None => self.generate_then_write(cell, None, &mut once),
            Some(registry) => self.generate_then_write(cell, Some(registry), &mut once),
        }
    }

    /// The same as `init_then_read_guard`; `None` exactly where the lock that the call wants is barred.
    ///
    /// # Errors
    ///
    /// `Failed` exactly where the closure failed in this call.
    pub fn try_init_then_read_guard<V, F: FnOnce() -> Result<V, InitFault> + Drop>(
        &mut self,
        cell: u32,
        reg: Option<&mut ExitRegistry>,
        run: F,
    ) -> Option<Result<(ReadTicket, Phase, Option<V>), InitError>>
        requires callable { F.IsAlwaysCallable run }
        requires exit { ForSome reg (λ m. MayEnlist cell self.old.locker m.now) }
        ensures tries { TriesCall F.post told_read Want.Read (tolerance G.INIT_FAILURE G.FINAL_REGISTRATION_FAILURE) (enlisted G.FINAL_REGISTRATION_FAILURE (option_copied_mut reg.entry) self.old.locker.phase) self.old.locker run result self.new.locker }
        ensures registry { option_copied_mut (left_behind reg.exit) ≡ option_map (after_asking (is_due_at Want.Read (tolerance G.INIT_FAILURE G.FINAL_REGISTRATION_FAILURE) self.old.locker) cell self.old.locker.phase) (option_copied_mut reg.entry) }
        ensures running { self.new.running ≡ self.old.running }
    {
        match reg {
            None => tried(self.init_then_read_guard(cell, None, run)),
            Some(registry) => tried(self.init_then_read_guard(cell, Some(registry), run)),
        }
    }

    /// The same as `init_then_write_guard`; `None` exactly where the lock that the call wants is barred.
    ///
    /// # Errors
    ///
    /// `Failed` exactly where the closure failed in this call.
    pub fn try_init_then_write_guard<V, F: FnOnce() -> Result<V, InitFault> + Drop>(
        &mut self,
        cell: u32,
        reg: Option<&mut ExitRegistry>,
        run: F,
    ) -> Option<Result<(WriteTicket, Phase, Option<V>), InitError>>
        requires callable { F.IsAlwaysCallable run }
        requires exit { ForSome reg (λ m. MayEnlist cell self.old.locker m.now) }
        ensures tries { TriesCall F.post told_write Want.Write (tolerance G.INIT_FAILURE G.FINAL_REGISTRATION_FAILURE) (enlisted G.FINAL_REGISTRATION_FAILURE (option_copied_mut reg.entry) self.old.locker.phase) self.old.locker run result self.new.locker }
        ensures registry { option_copied_mut (left_behind reg.exit) ≡ option_map (after_asking (is_due_at Want.Write (tolerance G.INIT_FAILURE G.FINAL_REGISTRATION_FAILURE) self.old.locker) cell self.old.locker.phase) (option_copied_mut reg.entry) }
        ensures running { self.new.running ≡ self.old.running }
    {
        match reg {
            None => tried(self.init_then_write_guard(cell, None, run)),
            Some(registry) => tried(self.init_then_write_guard(cell, Some(registry), run)),
        }
    }

    /// The same as `init`, of a cell that nobody holds and that is not registered for the exit. No value comes where the
    /// closure failed, and where no run is due; the phase says which.
    pub fn init_unique<V, F: FnOnce() -> Result<V, InitFault> + Drop>(
        &mut self,
        run: F,
    ) -> (Phase, Option<V>)
        requires callable { F.IsAlwaysCallable run }
        requires idle { IsIdle self.old.locker }
        ensures calls { CallsUnique F.post (tolerance G.INIT_FAILURE G.FINAL_REGISTRATION_FAILURE) self.old.locker run result self.new.locker }
        ensures running { self.new.running ≡ self.old.running }
    {
        let mut once = OnceGenerator::new(run);
        match self.generate(0, None, &mut once) {
            Ok(told) => told,
            Err(_) => (self.locker.phase(), None),
        }
    }

    /// The turn of the cell in an exit: the closure, which is the finalizer, runs where the value is there and nobody
    /// holds the cell, and the phase gets the flag of its outcome.
    pub fn finalize_callback<F: FnOnce() -> Result<(), FinalFault> + Drop>(
        &mut self,
        run: F,
    ) -> Turn
        requires { F.IsAlwaysCallable run }
        ensures turns { Finalizes F.post self.old.locker run result self.new.locker }
        ensures running { self.new.running ≡ self.old.running }
    {
        let phase = self.locker.phase();
        if !phase.contains(Phase::INITIALIZED) {
            return Turn::Skipped;
        }
        let Some(ticket) = self.locker.try_write() else {
            return Turn::Busy;
        };
        match run() {
            Ok(()) => {
                self.locker.free_write(ticket, finalized(phase, true));
                Turn::Done
            }
            Err(FinalFault) => {
                self.locker.free_write(ticket, finalized(phase, false));
                Turn::Failed
            }
        }
    }

    /// Takes a lock; `None` exactly where the nature that the rule gives is barred. Nothing is run.
    pub fn lock<F: Fn(Phase) -> LockNature>(
        &mut self,
        how: &F,
    ) -> Option<LockResult<ReadTicket, WriteTicket>>
        requires callable { MayJudge (F.pre how.now) }
        requires rule { IsRule (F.post how.now) }
        ensures tries { Tries (F.post how.now) self.old.locker result self.new.locker }
        ensures running { self.new.running ≡ self.old.running }
    {
        self.locker.lock(how)
    }

    /// The same as `lock`.
    pub fn try_lock<F: Fn(Phase) -> LockNature>(
        &mut self,
        how: &F,
    ) -> Option<LockResult<ReadTicket, WriteTicket>>
        requires callable { MayJudge (F.pre how.now) }
        requires rule { IsRule (F.post how.now) }
        ensures tries { Tries (F.post how.now) self.old.locker result self.new.locker }
        ensures running { self.new.running ≡ self.old.running }
    {
        self.locker.try_lock(how)
    }

    /// The write lock of a cell that nobody holds.
    pub fn lock_mut(&mut self) -> WriteTicket
        requires { IsIdle self.old.locker }
        ensures held { self.new.locker ≡ admit_write self.old.locker }
        ensures running { self.new.running ≡ self.old.running }
    {
        self.locker.lock_mut()
    }
}
