//! Finalizers of a cell's value.

ghost use Rattle.std.specs.Prelude.{Result};
ghost use Rattle.phase_seq.specs.declared.finalizer.FinalFault.{FinalFault};

/// A finalizer failed. This project's own: a finalizer of static_init panics.
#[derive(Clone, Copy, PartialEq, Eq, Debug)]
pub struct FinalFault;

/// What finalizes a value: it is called at the exit, or where its cell is finalized by hand. It is static_init's
/// `Finaly`; that it may fail is this project's own.
pub trait Finaly {
    // What `finaly` may answer.
    ghost finalizes: { Self → Result (Unit {0}) FinalFault → Type 0 };

    /// Finalizes the value.
    ///
    /// # Errors
    ///
    /// `FinalFault` where the finalizer failed.
    fn finaly(&self) -> Result<(), FinalFault>
        ensures { finalizes self.now result };
}

/// What takes a value out of use, where the exit finalizes a cell that goes on holding it, or where that is done by hand.
/// It is static_init's `Uninit`; that it may fail is this project's own.
pub trait Uninit {
    // What `uninit` may answer, with what it leaves of the value.
    ghost uninits: { Self → Result (Unit {0}) FinalFault → Self → Type 0 };

    /// Takes the value out of use.
    ///
    /// # Errors
    ///
    /// `FinalFault` where the finalizer failed.
    fn uninit(&mut self) -> Result<(), FinalFault>
        ensures { uninits self.old result self.new };
}
