//! The names of the locked lazies, and of the Lesser forms.

use crate::generic::GenericLazy;
use crate::locked::GenericLockedLazy;
use crate::markers::{Dropped, Full, Kept, LesserForm, NoExit, Primed, WithExit};

/// A value behind a lock, which a read or a write initializes. It is static_init's `LockedLazy`, for one thread.
pub type LockedLazy<T, G> = GenericLockedLazy<T, G, NoExit<Kept<Full>>>;

/// The same, for a value that the exit finalizes. It is static_init's `LockedLazyFinalize`, for one thread.
pub type LockedLazyFinalize<T, G> = GenericLockedLazy<T, G, WithExit<Kept<Full>>>;

/// The same, for a value that the exit drops. It is static_init's `LockedLazyDroped`, for one thread.
pub type LockedLazyDroped<T, G> = GenericLockedLazy<T, G, WithExit<Dropped<Full>>>;

/// A value behind a lock that is there from the start, and that a read or a write replaces. It is static_init's
/// `PrimedLockedLazy`, for one thread.
pub type PrimedLockedLazy<T, G> = GenericLockedLazy<T, G, NoExit<Primed<Full>>>;

/// The same, for a value that the exit takes out of use. It is static_init's `PrimedLockedLazyDroped`, for one thread.
pub type PrimedLockedLazyDroped<T, G> = GenericLockedLazy<T, G, WithExit<Primed<Full>>>;

/// The name that static_init gives the locked lazy of one thread.
pub type UnSyncLockedLazy<T, G> = LockedLazy<T, G>;

/// The Lesser form of `Lazy`, which a program starts before it uses it.
pub type LesserLazy<T, G> = GenericLazy<T, G, NoExit<LesserForm>>;

/// The Lesser form of `LazyFinalize`.
pub type LesserLazyFinalize<T, G> = GenericLazy<T, G, WithExit<LesserForm>>;

/// The Lesser form of `LockedLazy`.
pub type LesserLockedLazy<T, G> = GenericLockedLazy<T, G, NoExit<Kept<LesserForm>>>;

/// The Lesser form of `LockedLazyFinalize`.
pub type LesserLockedLazyFinalize<T, G> = GenericLockedLazy<T, G, WithExit<Kept<LesserForm>>>;

/// The Lesser form of `LockedLazyDroped`.
pub type LesserLockedLazyDroped<T, G> = GenericLockedLazy<T, G, WithExit<Dropped<LesserForm>>>;

/// The Lesser form of `PrimedLockedLazy`.
pub type PrimedLesserLockedLazy<T, G> = GenericLockedLazy<T, G, NoExit<Primed<LesserForm>>>;

/// The Lesser form of `PrimedLockedLazyDroped`.
pub type PrimedLesserLockedLazyDroped<T, G> = GenericLockedLazy<T, G, WithExit<Primed<LesserForm>>>;
