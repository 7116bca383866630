//! The kinds of cells.

ghost use Rattle.std.specs.Prelude.{◌≡◌};
ghost use Rattle.lazy_cells.specs.Kinds.{
  is_plain,
  is_primed,
  is_hard,
  is_finalizable,
  lends_value,
  is_within_reach,
  is_accessible,
};

use phase_bits::Phase;

/// What a cell is, by the type of static_init that it stands for.
///
/// `Lazy` and `LazyFinalize` are the *plain* kinds, the others are *locked*.
#[derive(Clone, Copy, PartialEq, Eq, Debug)]
pub enum Kind {
    /// A value that the first user makes.
    Lazy,
    /// The same, for a value that the exit finalizes.
    LazyFinalize,
    /// A value behind a lock, which a read or a write initializes.
    LockedLazy,
    /// The same, for a value that the exit finalizes.
    LockedLazyFinalize,
    /// A value behind a lock, which the exit drops. It can't be reached after that.
    LockedLazyDroped,
    /// A value behind a lock that is there from the start, and that initialization replaces.
    PrimedLockedLazy,
    /// The same, for a value that the exit puts back. It counts as not initialized after that.
    PrimedLockedLazyDroped,
}

impl Kind {
    /// Whether cells of this kind have no lock that a user holds.
    pub fn is_plain(self) -> bool
        ensures { result ≡ is_plain self }
    {
        match self {
            Kind::Lazy | Kind::LazyFinalize => true,
            Kind::LockedLazy
            | Kind::LockedLazyFinalize
            | Kind::LockedLazyDroped
            | Kind::PrimedLockedLazy
            | Kind::PrimedLockedLazyDroped => false,
        }
    }

    /// Whether the value of a cell of this kind that nobody else uses is lent, by `get_mut` and `try_get_mut`.
    pub fn lends_value(self) -> bool
        ensures { result ≡ lends_value self }
    {
        match self {
            Kind::Lazy | Kind::LockedLazy => true,
            Kind::LazyFinalize
            | Kind::LockedLazyFinalize
            | Kind::LockedLazyDroped
            | Kind::PrimedLockedLazy
            | Kind::PrimedLockedLazyDroped => false,
        }
    }

    /// Whether a finalizer takes the value out of reach: the *hard* kinds.
    pub fn is_hard(self) -> bool
        ensures { result ≡ is_hard self }
    {
        match self {
            Kind::LockedLazyDroped | Kind::PrimedLockedLazyDroped => true,
            Kind::Lazy
            | Kind::LazyFinalize
            | Kind::LockedLazy
            | Kind::LockedLazyFinalize
            | Kind::PrimedLockedLazy => false,
        }
    }
}

/// Whether cells of this kind are registered for the exit, before their generator first runs.
pub fn finalizable(k: Kind) -> bool
    ensures { result ≡ is_finalizable k }
{
    match k {
        Kind::LazyFinalize
        | Kind::LockedLazyFinalize
        | Kind::LockedLazyDroped
        | Kind::PrimedLockedLazyDroped => true,
        Kind::Lazy | Kind::LockedLazy | Kind::PrimedLockedLazy => false,
    }
}

/// Whether cells of this kind hold a value from the start.
pub fn primed(k: Kind) -> bool
    ensures { result ≡ is_primed k }
{
    match k {
        Kind::PrimedLockedLazy | Kind::PrimedLockedLazyDroped => true,
        Kind::Lazy
        | Kind::LazyFinalize
        | Kind::LockedLazy
        | Kind::LockedLazyFinalize
        | Kind::LockedLazyDroped => false,
    }
}

/// Whether the value of a cell of this kind may be reached at this phase: a run succeeded, and where a finalizer takes
/// the value away, none ran.
pub fn accessible(k: Kind, p: Phase) -> bool
    ensures { result ≡ is_accessible k p }
{
    within_reach(k.is_hard(), p)
}

/// Whether a value is in reach at this phase, which a finalizer takes out of reach where `hard` says so.
pub(crate) fn within_reach(hard: bool, p: Phase) -> bool
    ensures { result ≡ is_within_reach hard p }
{
    if !p.contains(Phase::INITIALIZED) {
        return false;
    }
    !hard || !(p.contains(Phase::FINALIZED) || p.contains(Phase::FINALIZATION_PANICKED))
}
