//! The attempts of calls and turns.

ghost use Rattle.std.specs.Prelude.{◌≡◌, true, false};
ghost use Rattle.schedule_rules.specs.Kinds.{is_of_other};
ghost use Rattle.phase_moves.specs.Moves.{KeptWith};
ghost use Rattle.phase_acts.specs.Steps.{MayAct, Acts};
ghost use Rattle.phase_acts.specs.Tries.{MayTry, Tries};

use crate::machine::Machine;
use lazy_cells::has_call;
use phase_locker::PhaseLocker;
use phase_moves::Target;
use schedule_rules::{Act, Call, Line, Place, Refusal, Want};

/// Whether the cell at this place belongs to another party.
pub(crate) fn is_of_other(place: Place, party: u32) -> bool
    ensures { result ≡ is_of_other place party }
{
    match place {
        Place::Park | Place::Spin => false,
        Place::Own(owner) => owner != party,
    }
}

impl<L: PhaseLocker> Machine<L> {
    /// One attempt of a call or a turn, to the end of the step. It stands in the place of each of its three calls, so that
    /// what differs between a first attempt and a further one is known there.
    #[inline(always)]
    fn tries(&mut self, party: u32, target: Target, waits: bool) -> Line
        requires { MayTry L.held L.place self.old.rows party target waits }
        ensures tries { Tries L.held L.place self.old.rows party target waits result self.new.rows }
        ensures kept { KeptWith 1 self.old.rows self.new.rows }
    {
        let (taken, given) = self.rows.attempt(party, target, waits);
        self.settle(party, target, taken, given)
    }

    /// A further attempt of a party that waits.
    pub(crate) fn again(&mut self, party: u32, target: Target) -> Line
        requires { MayTry L.held L.place self.old.rows party target true }
        ensures tries { Tries L.held L.place self.old.rows party target true result self.new.rows }
        ensures kept { KeptWith 1 self.old.rows self.new.rows }
    {
        self.tries(party, target, true)
    }

    /// The first attempt of a turn.
    pub(crate) fn turn(&mut self, party: u32, target: Target) -> Line
        requires { MayTry L.held L.place self.old.rows party target false }
        ensures tries { Tries L.held L.place self.old.rows party target false result self.new.rows }
        ensures kept { KeptWith 1 self.old.rows self.new.rows }
    {
        self.tries(party, target, false)
    }

    /// A call of a party that does not wait. It is refused on a cell of another party, and where cells of its kind do
    /// not have it.
    pub(crate) fn call(&mut self, party: u32, cell: u32, call: Call) -> Line
        requires { MayAct L.held L.place self.old.rows party (Act.Call cell call) }
        ensures { Acts L.held L.place self.old.rows party (Act.Call cell call) result self.new.rows }
    {
        let plan = self.rows.cells[cell as usize].plan;
        if is_of_other(plan.place, party) {
            return self.refuse(Refusal::NotOwner);
        }
        if !has_call(plan.kind, call) {
            return self.refuse(Refusal::NoSuchCall);
        }
        let target = Target {
            cell,
            want: Want::Calls(call),
        };
        self.tries(party, target, false)
    }
}
