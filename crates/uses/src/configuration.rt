//! A service's configuration, read when it is first asked for.

ghost use Rattle.std.specs.Prelude.{◌≡◌, ℕ, Some, Ok, true, false};

use lazy_cells::UnSyncLazy;
use phase_seq::{Generator, InitError};

/// The port of a service. Where it is not known yet, its source is asked, and once more where that fails. Once it is
/// known the source is not asked again.
///
/// # Errors
///
/// `Failed` where the source failed both times, `Access` where it failed before and is asked only once.
pub fn port<S: Generator<u64>>(configuration: &mut UnSyncLazy<u64, S>) -> Result<u64, InitError>
    requires { S.may_call configuration.old.generator }
    ensures known { (p : ℕ) → configuration.old.value ≡ Some p → result ≡ Ok p }
    ensures same { (p : ℕ) → configuration.old.value ≡ Some p → configuration.new ≡ configuration.old }
{
    if let Ok(port) = UnSyncLazy::try_get(configuration) {
        return Ok(*port);
    }
    if let Ok(port) = UnSyncLazy::get(configuration) {
        return Ok(*port);
    }
    match UnSyncLazy::get(configuration) {
        Ok(port) => Ok(*port),
        Err(e) => Err(e),
    }
}

#[cfg(test)]
mod tests {
    use super::port;
    use lazy_cells::UnSyncLazy;
    use phase_bits::Phase;
    use phase_seq::{Generator, GeneratorTolerance, InitError, InitFault};

    #[test]
    fn a_known_port_is_not_asked_for_again(rt: HostRuntime) {
        let mut configuration = UnSyncLazy::from_generator(|| -> Result<u64, InitFault> { Ok(80) });
        assert_eq!(rt; port(&mut configuration), Ok(80));
        assert_eq!(rt; port(&mut configuration), Ok(80));
    }

    /// A source that fails once, and then tells a port.
    #[derive(Drop)]
    struct Late {
        failed: bool,
    }

    impl GeneratorTolerance for Late {
        ghost INIT_FAILURE = { true };

        ghost FINAL_REGISTRATION_FAILURE = { false };

        const INIT_FAILURE: bool = true;

        const FINAL_REGISTRATION_FAILURE: bool = false;
    }

    impl Generator<u64> for Late {
        ghost may_call = { λ g. Unit {0} };

        ghost generates = { λ g r. Unit {0} };

        ghost attempts = { λ g r left. Unit {0} };

        fn generate(&self) -> Result<u64, InitFault> {
            Err(InitFault)
        }

        fn attempt(&mut self) -> Result<u64, InitFault> {
            if self.failed {
                return Ok(8);
            }
            self.failed = true;
            Err(InitFault)
        }
    }

    #[test]
    fn a_port_is_changed_where_it_is_known(rt: HostRuntime) {
        let mut configuration: UnSyncLazy<u64, Late> = UnSyncLazy::from_generator(Late {
            failed: false,
        });
        assert!(rt; UnSyncLazy::try_get_mut(&mut configuration).is_err());
        assert!(rt; UnSyncLazy::phase(&configuration).is_empty());
        let found = UnSyncLazy::get_mut(&mut configuration).map(|port| *port);
        assert_eq!(rt; found, Err(InitError::Failed));
        if let Ok(port) = UnSyncLazy::get_mut(&mut configuration) {
            assert_eq!(rt; *port, 8);
            *port = 3;
        }
        assert_eq!(rt; port(&mut configuration), Ok(3));
        assert_eq!(rt; UnSyncLazy::phase(&configuration), Phase::INITIALIZED);
    }
}
