//! Generators, called.

use phase_seq::{
    DefaultGenerator, Generator, GeneratorTolerance, InitFault, OnceGenerator, Tolerance,
    promised_faults_come, promised_values_come, tolerance_of,
};

/// The tolerance of the cells of this generator.
fn tolerance<G: GeneratorTolerance>(_generator: &G) -> Tolerance {
    tolerance_of::<G>()
}

#[test]
fn a_function_is_called_each_time(rt: HostRuntime) {
    let base = 40u64;
    let mut makes = move || -> Result<u64, InitFault> { Ok(base + 2) };
    assert_eq!(rt; makes.generate(), Ok(42));
    assert_eq!(rt; makes.attempt(), Ok(42));
    assert_eq!(rt; makes.attempt(), Ok(42));
    let mut fails = || -> Result<u64, InitFault> { Err(InitFault) };
    assert_eq!(rt; fails.attempt(), Err(InitFault));
    assert_eq!(rt;
        tolerance(&fails),
        Tolerance {
            retry: true,
            leak: false
        }
    );
}

#[test]
fn a_function_is_taken_once(rt: HostRuntime) {
    let mut twice = OnceGenerator::new(|| -> Result<u64, InitFault> { Ok(7) });
    assert!(rt; twice.take().is_some());
    assert!(rt; twice.take().is_none());
    let mut once = OnceGenerator::new(|| -> Result<u64, InitFault> { Ok(7) });
    assert_eq!(rt; once.generate(), Err(InitFault));
    assert_eq!(rt; once.attempt(), Ok(7));
    assert_eq!(rt; once.attempt(), Err(InitFault));
    assert!(rt; once.take().is_none());
    assert_eq!(rt;
        tolerance(&once),
        Tolerance {
            retry: false,
            leak: false
        }
    );
}

#[test]
fn a_default_is_made(rt: HostRuntime) {
    let mut makes = DefaultGenerator;
    let made: Result<u64, InitFault> = makes.generate();
    assert_eq!(rt; made, Ok(0));
    let made: Result<bool, InitFault> = makes.attempt();
    assert_eq!(rt; made, Ok(false));
    assert_eq!(rt;
        tolerance(&makes),
        Tolerance {
            retry: true,
            leak: false
        }
    );
}

#[test]
fn promises_are_kept(rt: HostRuntime) {
    let mut makes = || -> Result<u64, InitFault> { Ok(5) };
    assert_eq!(rt; promised_values_come(&mut makes), 5);
    let mut once = OnceGenerator::new(|| -> Result<u64, InitFault> { Ok(6) });
    assert_eq!(rt; promised_values_come(&mut once), 6);
    let mut fails = || -> Result<u64, InitFault> { Err(InitFault) };
    assert_eq!(rt; promised_faults_come::<u64, _>(&mut fails), InitFault);
    assert_eq!(rt; promised_faults_come::<u64, _>(&mut once), InitFault);
}
