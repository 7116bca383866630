//! The tables of calls and of phases, worked out by hand, and the rules: they agree on each call of each kind, at each phase
//! that cells meet, with and without retry and leak, while the registry is open and when it is closed.

ghost use Rattle.lazy_cells.specs.declared.kind.Kind.TheVariants as kind;
ghost use Rattle.schedule_examples.specs.FollowsTable.{CallsFollow, TurnsFollow};

/// The calls of the kinds without guards.
pub fn plain_calls_follow_the_table()
    ensures lazy { CallsFollow kind.Lazy }
    ensures finalized { CallsFollow kind.LazyFinalize }
{}

/// The calls of the kinds with guards and without a prime value.
pub fn locked_calls_follow_the_table()
    ensures lazy { CallsFollow kind.LockedLazy }
    ensures finalized { CallsFollow kind.LockedLazyFinalize }
    ensures dropped { CallsFollow kind.LockedLazyDroped }
{}

/// The calls of the kinds with a prime value.
pub fn primed_calls_follow_the_table()
    ensures lazy { CallsFollow kind.PrimedLockedLazy }
    ensures dropped { CallsFollow kind.PrimedLockedLazyDroped }
{}

/// The turns of the kinds that are finalized, and what their finalizers leave.
pub fn turns_follow_the_table()
    ensures lazy { TurnsFollow kind.LazyFinalize }
    ensures locked { TurnsFollow kind.LockedLazyFinalize }
    ensures dropped { TurnsFollow kind.LockedLazyDroped }
    ensures primed { TurnsFollow kind.PrimedLockedLazyDroped }
{}
