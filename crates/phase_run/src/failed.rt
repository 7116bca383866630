//! The failure of a source or a sink.

/// A source or a sink failed. It may work again at the next call.
#[derive(Clone, Copy, PartialEq, Eq, Debug)]
pub struct Failed;
