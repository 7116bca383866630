//! Lazy cells for one thread: the kinds of cells with their calls, the policies, and the plain cells. It stands on the
//! sequentializer of `phase_seq`, the lockers of `phase_locker`, the registry of `exit_registry` and the phases of
//! `phase_bits`.
#![tactic(auto)]

mod access;
mod call;
mod fast;
mod fill;
mod generic;
mod guarded;
mod kind;
mod lesser;
mod locked;
mod markers;
mod names;
mod policy;
mod start_list;
mod started;

pub use access::{Lazy, LazyAccess, LazyFinalize, UnSyncLazy};
pub use call::{Call, ask_of, has_call};
pub use generic::GenericLazy;
pub use kind::{Kind, accessible, finalizable, primed};
pub use lesser::{Lesser, Startable};
pub use locked::GenericLockedLazy;
pub use markers::{
    Content, Dropped, Full, IsLesser, IsPrimed, Kept, LesserForm, NoExit, Primed, Reach, WithExit,
};
pub use names::{
    LesserLazy, LesserLazyFinalize, LesserLockedLazy, LesserLockedLazyDroped,
    LesserLockedLazyFinalize, LockedLazy, LockedLazyDroped, LockedLazyFinalize,
    PrimedLesserLockedLazy, PrimedLesserLockedLazyDroped, PrimedLockedLazy, PrimedLockedLazyDroped,
    UnSyncLockedLazy,
};
pub use policy::{
    InitializedChecker, InitializedHardFinalizedChecker, InitializedSoftFinalizedChecker,
    LazyPolicy,
};
pub use start_list::start_all;
pub use started::{Started, start};
