//! Registration and rounds.

use exit_registry::{ExitRegistry, Look};
use std::test::Fail;

/// A call of the registry.
#[derive(Clone, Copy, Debug)]
enum Ask {
    Register(u32),
    Look,
    NextTurn,
}

/// What the registry answered to it.
#[derive(Clone, Copy, PartialEq, Eq, Debug)]
enum Told {
    Registered(bool),
    Looked(Look),
    Turn(Option<u32>),
    NotAllowed,
}

/// Asks the registry, where the call is allowed.
fn tell(registry: &mut ExitRegistry, ask: Ask) -> Told {
    match ask {
        Ask::Register(cell) => {
            if cell >= registry.cells() || registry.knows(cell) {
                return Told::NotAllowed;
            }
            Told::Registered(registry.register(cell))
        }
        Ask::Look => match registry.next_turn() {
            Some(_) => Told::NotAllowed,
            None => Told::Looked(registry.look()),
        },
        Ask::NextTurn => Told::Turn(registry.next_turn()),
    }
}

#[test]
fn rounds_take_the_latest_first(rt: HostRuntime) -> Result<(), Fail> {
    let mut registry = ExitRegistry::new(rt.alloc(), 4)?;
    assert_eq!(rt; registry.cells(), 4);
    assert!(rt; registry.is_open());
    assert!(rt; !registry.knows(0));
    let rows = [
        (Ask::Register(0), Told::Registered(true)),
        (Ask::Register(1), Told::Registered(true)),
        (Ask::Register(1), Told::NotAllowed),
        (Ask::Register(4), Told::NotAllowed),
        (Ask::NextTurn, Told::Turn(None)),
        (Ask::Look, Told::Looked(Look::Round(2))),
        (Ask::NextTurn, Told::Turn(Some(1))),
        (Ask::Register(2), Told::Registered(true)),
        (Ask::NextTurn, Told::Turn(Some(0))),
        (Ask::NextTurn, Told::Turn(None)),
        (Ask::Look, Told::Looked(Look::Round(1))),
        (Ask::NextTurn, Told::Turn(Some(2))),
        (Ask::Look, Told::Looked(Look::Closed)),
        (Ask::Register(3), Told::Registered(false)),
        (Ask::Look, Told::Looked(Look::Closed)),
        (Ask::NextTurn, Told::Turn(None)),
    ];
    for (asked, told) in rows {
        assert_eq!(rt; tell(&mut registry, asked), told, "at {asked:?}");
    }
    assert!(rt; !registry.is_open());
    assert!(rt; registry.knows(0) && registry.knows(1) && registry.knows(2));
    assert!(rt; !registry.knows(3));
    Ok(())
}
