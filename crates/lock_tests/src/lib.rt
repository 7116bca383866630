//! Tests of the crates that locks are made of. They stand apart from what they test, so that the gate proves each library
//! once, and not once more beside its tests.
//!
//! - `bits`: phases, and what has one (`phase_bits`).
//! - `registry`, `exit`: registration, rounds, and the exit over boxed objects (`exit_registry`).
//! - `threads`: the shared word (`lazy_threads`).
//! - `sequencing`, `registration`, `finalizers`, `generators`: who runs what, and which phase that leaves (`phase_seq`).

#![tactic(auto)]

#[cfg(test)]
mod bits;
#[cfg(test)]
mod calls;
#[cfg(test)]
mod exit;
#[cfg(test)]
mod finalizers;
#[cfg(test)]
mod generators;
#[cfg(test)]
mod registration;
#[cfg(test)]
mod registry;
#[cfg(test)]
mod sequencing;
#[cfg(test)]
mod threads;
