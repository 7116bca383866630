//! What has a turn in the exit, and how a turn ends.

ghost use Rattle.std.specs.Prelude.{◌≡◌, true};
ghost use Rattle.exit_registry.specs.Turns.{Meanings, Answers, left_by, is_still};

/// How an exit turn ended. This project's own: the exit of static_init answers nothing.
#[derive(Clone, Copy, PartialEq, Eq, Debug)]
pub enum Turn {
    /// The object was not initialized, and the finalizer did not run.
    Skipped,
    /// The finalizer succeeded.
    Done,
    /// The finalizer failed.
    Failed,
    /// The object was initialized and held, and the finalizer did not run.
    Busy,
}

/// A cell that had its turn, and how that ended. This project's own.
#[derive(Clone, Copy, PartialEq, Eq, Debug)]
pub struct Turned {
    /// The number of the cell.
    pub cell: u32,
    /// How its turn ended.
    pub turn: Turn,
}

/// What has a turn in the exit. It is static_init's `OnExit`, whose `execute` answers nothing.
///
/// A contract sees four truth values of an object: whether it is initialized, whether it is held, whether its finalizer
/// succeeded, and whether that failed. For a cell they are its phase's INITIALIZED, an open ticket, FINALIZED and
/// FINALIZATION_PANICKED.
pub trait Finalizable: Drop {
    // The four truth values.
    ghost meanings: { Self → Meanings };

    /// The turn of the object. It is `Skipped` exactly where the object is not initialized, and `Busy` exactly where it
    /// is initialized and held; nothing changes then. Else the finalizer runs, and the turn is `Done` where it succeeds
    /// and `Failed` where it fails.
    fn execute(&mut self) -> Turn
        ensures answers { Answers (meanings self.old) result }
        ensures leaves { meanings self.new ≡ left_by result (meanings self.old) }
        ensures still { is_still result ≡ true → self.new ≡ self.old };
}
