//! The turn of a locked lazy in an exit.

ghost use Rattle.std.specs.Prelude.{◌≡◌, true};
ghost use Rattle.exit_registry.specs.Turns.{Answers, left_by, is_still};
ghost use Rattle.lazy_cells.specs.Finalizers.{meanings_of, Finalizes, KeepsValue, DropsValue, TakenOut};

use crate::locked::GenericLockedLazy;
use crate::markers::{Dropped, Kept, Primed, WithExit};
use exit_registry::{Finalizable, Turn};
use phase_seq::{Finaly, GeneratorTolerance, Uninit};

impl<T: Finaly + Drop, G: GeneratorTolerance + Drop, Q: Drop> Finalizable
    for GenericLockedLazy<T, G, WithExit<Kept<Q>>> {
    ghost meanings = { meanings_of };

    fn execute(&mut self) -> Turn
        ensures answers { Answers (meanings_of self.old) result }
        ensures leaves { meanings_of self.new ≡ left_by result (meanings_of self.old) }
        ensures still { is_still result ≡ true → self.new ≡ self.old }
        ensures finalizes { Finalizes (KeepsValue T.finalizes) self.old result self.new }
        ensures generator { self.new.generator ≡ self.old.generator }
        ensures marker { self.new.marker ≡ self.old.marker }
    {
        self.cell.finalize_kept()
    }
}

impl<T: Drop, G: GeneratorTolerance + Drop, Q: Drop> Finalizable
    for GenericLockedLazy<T, G, WithExit<Dropped<Q>>> {
    ghost meanings = { meanings_of };

    fn execute(&mut self) -> Turn
        ensures answers { Answers (meanings_of self.old) result }
        ensures leaves { meanings_of self.new ≡ left_by result (meanings_of self.old) }
        ensures still { is_still result ≡ true → self.new ≡ self.old }
        ensures finalizes { Finalizes DropsValue self.old result self.new }
        ensures generator { self.new.generator ≡ self.old.generator }
        ensures marker { self.new.marker ≡ self.old.marker }
    {
        self.cell.finalize_dropped()
    }
}

impl<T: Uninit + Drop, G: GeneratorTolerance + Drop, Q: Drop> Finalizable
    for GenericLockedLazy<T, G, WithExit<Primed<Q>>> {
    ghost meanings = { meanings_of };

    fn execute(&mut self) -> Turn
        ensures answers { Answers (meanings_of self.old) result }
        ensures leaves { meanings_of self.new ≡ left_by result (meanings_of self.old) }
        ensures still { is_still result ≡ true → self.new ≡ self.old }
        ensures finalizes { Finalizes (TakenOut T.uninits) self.old result self.new }
        ensures generator { self.new.generator ≡ self.old.generator }
        ensures marker { self.new.marker ≡ self.old.marker }
    {
        self.cell.finalize_primed()
    }
}
