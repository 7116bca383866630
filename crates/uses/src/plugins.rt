//! A host with two plugins, which are shut down in the opposite order of their start.

ghost use Rattle.std.specs.Prelude.{◌≡◌, false, [], ◌∷◌, length, IfOk};
ghost use Rattle.exit_registry.specs.Exits.{cells_of_turns};

use exit_registry::{ExitRegistry, Finalizable, Log, Turn};
use std::alloc::{AllocError, Global};

/// A plugin of the host. It runs until it is stopped.
#[derive(Clone, Copy, PartialEq, Eq, Debug)]
pub struct Plugin {
    /// It was started.
    pub started: bool,
    /// It was started, and stopped.
    pub stopped: bool,
}

impl Finalizable for Plugin {
    // What the exit sees of a plugin: nobody holds one, and none fails to stop.
    ghost meanings = { λ p. record { initialized = p.started; held = false; finalized = p.stopped; failed = false } };

    fn execute(&mut self) -> Turn {
        if !self.started {
            return Turn::Skipped;
        }
        self.stopped = true;
        Turn::Done
    }
}

/// Starts plugin 0 and then plugin 1, and shuts the host down. The log tells the turns: plugin 1 comes first.
pub fn run_host(alloc: Global, plugins: &mut [Box<dyn Finalizable>]) -> Result<Log, AllocError>
    requires { length plugins.old ≡ 2 }
    ensures order { IfOk result (λ log. cells_of_turns log.turns ≡ 1 ∷ 0 ∷ []) }
{
    // The registry has a place for each plugin, and is open.
    let mut registry = ExitRegistry::new(alloc, 2)?;
    let mut log = Log::new(alloc, 2)?;
    // A plugin is registered when it is started. Once the registry is closed, that answers false.
    let first = registry.register(0);
    let second = registry.register(1);
    prove!(first && second);
    // The exit takes the latest registration first, and stops each plugin once.
    registry.run_exit(plugins, &mut log);
    Ok(log)
}
