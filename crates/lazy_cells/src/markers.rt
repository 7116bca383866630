//! The markers of the kinds of lazies. All of them are this project's own.

ghost use Rattle.std.specs.Prelude.{◌≡◌, Bool, true, false};

use std::marker::PhantomData;

/// The form with all calls.
#[derive(Drop)]
pub struct Full;

/// The form for cells that a program starts before it uses them. It has no call that needs the cell alone.
#[derive(Drop)]
pub struct LesserForm;

/// The marker of cells that are not registered for the exit, of the form `Q`. Their calls are passed no registry.
#[derive(Drop)]
pub struct NoExit<Q> {
    form: PhantomData<Q>,
}

/// The marker of cells that are registered for the exit, of the form `Q`. Their calls are passed the registry, in which
/// the cell has this number.
#[derive(Drop)]
pub struct WithExit<Q> {
    pub(crate) cell: u32,
    form: PhantomData<Q>,
}

impl<Q> NoExit<Q> {
    /// The marker.
    pub(crate) fn new() -> NoExit<Q> {
        NoExit { form: PhantomData }
    }
}

impl<Q> WithExit<Q> {
    /// The marker of the cell with this number.
    pub(crate) fn new(cell: u32) -> WithExit<Q>
        ensures { result.cell ≡ cell }
    {
        WithExit {
            cell,
            form: PhantomData,
        }
    }
}

/// The marker of locked cells that start empty, and keep the value that was made, of the form `Q`.
#[derive(Drop)]
pub struct Kept<Q> {
    form: PhantomData<Q>,
}

/// The marker of locked cells that start empty, and whose value the exit drops, of the form `Q`.
#[derive(Drop)]
pub struct Dropped<Q> {
    form: PhantomData<Q>,
}

/// The marker of locked cells that hold a value from the start, of the form `Q`. Where the exit finalizes such a cell, the
/// value stays that its finalizer left, and is in reach no more.
#[derive(Drop)]
pub struct Primed<Q> {
    form: PhantomData<Q>,
}

/// What a marker says of the value of a locked cell.
pub trait Content {
    // It is there from the start.
    ghost is_primed: { Bool };

    // A finalizer takes it out of reach.
    ghost is_taken: { Bool };

    /// Whether a finalizer takes the value out of reach.
    fn is_taken() -> bool
        ensures { result ≡ is_taken };
}

impl<Q> Content for Kept<Q> {
    ghost is_primed = { false };

    ghost is_taken = { false };

    fn is_taken() -> bool {
        false
    }
}

impl<Q> Content for Dropped<Q> {
    ghost is_primed = { false };

    ghost is_taken = { true };

    fn is_taken() -> bool {
        true
    }
}

impl<Q> Content for Primed<Q> {
    ghost is_primed = { true };

    ghost is_taken = { true };

    fn is_taken() -> bool {
        true
    }
}

/// The content of a locked cell of a Lesser form.
pub trait IsLesser: Content + Drop {}

impl IsLesser for Kept<LesserForm> {}

impl IsLesser for Dropped<LesserForm> {}

impl IsLesser for Primed<LesserForm> {}

/// What the marker of a locked cell says of its value, by its content and by whether the exit finalizes it.
pub trait Reach {
    // The value is there from the start.
    ghost primed: { Bool };

    // A finalizer takes it out of reach.
    ghost hard: { Bool };

    /// Whether a finalizer takes the value out of reach.
    fn is_hard() -> bool
        ensures { result ≡ hard };
}

// No finalizer takes anything.
impl<C: Content> Reach for NoExit<C> {
    ghost primed = { C.is_primed };

    ghost hard = { false };

    fn is_hard() -> bool {
        false
    }
}

impl<C: Content> Reach for WithExit<C> {
    ghost primed = { C.is_primed };

    ghost hard = { C.is_taken };

    fn is_hard() -> bool {
        C::is_taken()
    }
}

/// The marker of a locked cell that holds a value from the start.
pub trait IsPrimed: Reach {
    // It says so.
    ghost always: { Self.primed ≡ true };
}

impl<Q> IsPrimed for NoExit<Primed<Q>> {
    ghost use Rattle.std.specs.Prelude.{refl};

    ghost always = { refl };
}

impl<Q> IsPrimed for WithExit<Primed<Q>> {
    ghost use Rattle.std.specs.Prelude.{refl};

    ghost always = { refl };
}
