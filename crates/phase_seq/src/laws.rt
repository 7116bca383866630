//! What a generator promises is what comes.

ghost use Rattle.std.specs.Prelude.{Ok, Err, Result, IsOk, IsErr};
ghost use Rattle.phase_seq.specs.declared.generator.InitFault.{InitFault};

use crate::generator::{Generator, InitFault};

/// A generator that promises a value never fails.
pub fn promised_values_come<T, G: Generator<T>>(g: &mut G) -> T
    requires callable { G.may_call g.old }
    requires promised { (r : Result T InitFault) (left : G) → G.attempts g.old r left → IsOk r }
    ensures attempts { G.attempts g.old (Ok result) g.new }
    ensures again { G.may_call g.new }
{
    g.attempt().unwrap()
}

/// A generator that promises to fail never makes a value.
pub fn promised_faults_come<T: Drop, G: Generator<T>>(g: &mut G) -> InitFault
    requires callable { G.may_call g.old }
    requires promised { (r : Result T InitFault) (left : G) → G.attempts g.old r left → IsErr r }
    ensures attempts { G.attempts g.old (Err result) g.new }
    ensures again { G.may_call g.new }
{
    g.attempt().unwrap_err()
}

/// A shared generator that promises a value never fails.
pub fn promised_values_are_generated<T, G: Generator<T>>(g: &G) -> T
    requires callable { G.may_call g.now }
    requires promised { (r : Result T InitFault) → G.generates g.now r → IsOk r }
    ensures generates { G.generates g.now (Ok result) }
{
    g.generate().unwrap()
}

/// A shared generator that promises to fail never makes a value.
pub fn promised_faults_are_generated<T: Drop, G: Generator<T>>(g: &G) -> InitFault
    requires callable { G.may_call g.now }
    requires promised { (r : Result T InitFault) → G.generates g.now r → IsErr r }
    ensures generates { G.generates g.now (Err result) }
{
    g.generate().unwrap_err()
}
