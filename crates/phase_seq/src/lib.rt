//! Who runs the generator or the finalizer of a lazy cell, and what phase that leaves: generators, finalizers, tolerances
//! and the sequentializer. It stands on the lockers of `phase_locker`, the registry of `exit_registry` and the phases of
//! `phase_bits`.
#![tactic(auto)]

mod ask;
mod finalizer;
mod generator;
mod init_error;
mod laws;
mod once;
mod phases;
mod section;
mod sequentializer;
mod tolerance;

pub use ask::{Ask, Want};
pub use finalizer::{FinalFault, Finaly, Uninit};
pub use generator::{DefaultGenerator, Generator, GeneratorTolerance, InitFault};
pub use init_error::InitError;
pub use laws::{
    promised_faults_are_generated, promised_faults_come, promised_values_are_generated,
    promised_values_come,
};
pub use once::OnceGenerator;
pub use section::{Begun, Finished, Section};
pub use sequentializer::LazySequentializer;
pub use tolerance::{Tolerance, shall_init, tolerance_of};
