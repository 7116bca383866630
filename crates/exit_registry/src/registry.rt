//! Registration, and the rounds in which the registered cells have their turns.

ghost use Rattle.std.specs.Prelude.{◌≡◌, ◌+◌, ◌^◌, ◌<◌, [], false, true, IfOk, length, slice_set};
ghost use Rattle.exit_registry.specs.Registry.{Registry, IsSound, new_registry, cells_of, is_known, after_register, look_at, looked, first_of, after_turn};

use std::alloc::{AllocError, Global};
use std::marker::Model;

/// What a look answers. This project's own.
#[derive(Clone, Copy, PartialEq, Eq, Debug)]
pub enum Look {
    /// The number of cells that the look took: those registered since the last one, of which there was at least one.
    Round(u32),
    /// No cell was registered since the last look, and from now on none is.
    Closed,
}

/// What is kept of a cell: whether it was ever registered, and which cell comes after it in the round that it is in.
#[derive(Clone, Copy)]
struct Row {
    known: bool,
    next: u32,
}

/// The row of a cell that was not registered.
const UNKNOWN: Row = Row {
    known: false,
    next: 0,
};

/// The cells of a round: so many, from the first on, each with the next in its row.
#[derive(Clone, Copy)]
struct Chain {
    count: u32,
    first: u32,
}

/// No cells.
const NOTHING: Chain = Chain { count: 0, first: 0 };

/// The cells registered for the exit, and the rounds in which it takes them. It stands for the one register of
/// static_init, in which the cells themselves are linked.
///
/// A contract sees the cells registered since the last look, in the order in which the next look would take them; the
/// cells left of the last look, in the order of their turns; for each cell whether it was ever registered; and whether
/// the registry is open. Only `new` takes memory.
#[derive(Drop)]
pub struct ExitRegistry {
    rows: Vec<Row>,
    pending: Chain,
    left: Chain,
    is_open: bool,
}

impl Model for ExitRegistry {
    ghost use Rattle.exit_registry.specs.Registry.{Registry};
    ghost use Rattle.exit_registry.specs.Chains.{seen, IsKept};

    ghost Value = { Registry };

    ghost view = { λ r. seen r.rows.items r.pending r.left r.is_open };

    ghost invariant = { λ r. IsKept r.rows.items r.pending r.left r.is_open };
}

/// Puts a cell into the round that the next look takes. The order of a round is made here alone: the latest
/// registration comes first.
fn link(rows: &mut [Row], round: Chain, cell: u32) -> Chain
    requires cell { cell < length rows.old }
    requires room { round.count + 1 < 2 ^ 32 }
    ensures rows { rows.new ≡ slice_set rows.old cell (record { known = true; next = round.first }) }
    ensures round { result ≡ record { count = round.count + 1; first = cell } }
{
    rows[cell as usize] = Row {
        known: true,
        next: round.first,
    };
    Chain {
        count: round.count + 1,
        first: cell,
    }
}

impl ExitRegistry {
    /// An open registry for so many cells, of which none is registered.
    ///
    /// # Errors
    ///
    /// `AllocError` where memory is short.
    pub fn new(alloc: Global, cells: u32) -> Result<ExitRegistry, AllocError>
        ensures { IfOk result (λ r. r ≡ new_registry cells) }
    {
        let rows = Vec::from_elem(alloc, UNKNOWN, cells as usize)?;
        Ok(ExitRegistry {
            rows,
            pending: NOTHING,
            left: NOTHING,
            is_open: true,
        })
    }

    /// The number of cells that it was made for.
    pub fn cells(&self) -> u32
        ensures cells { result ≡ cells_of self.now }
        ensures sound { IsSound self.now }
    {
        self.rows.len() as u32
    }

    /// Whether this cell was ever registered. A number that is not below `cells` never was.
    pub fn knows(&self, cell: u32) -> bool
        ensures knows { result ≡ is_known self.now cell }
        ensures sound { IsSound self.now }
    {
        match self.rows.get(cell as usize) {
            Some(row) => row.known,
            None => false,
        }
    }

    /// Whether cells may still be registered.
    pub fn is_open(&self) -> bool
        ensures is_open { result ≡ self.now.is_open }
        ensures sound { IsSound self.now }
    {
        self.is_open
    }

    /// Registers a cell, which is below `cells` and was not registered before. Answers false exactly where the registry is
    /// closed, and then nothing changes. It is static_init's `finalize_at_exit`.
    pub fn register(&mut self, cell: u32) -> bool
        requires cell { cell < cells_of self.old }
        requires unknown { is_known self.old cell ≡ false }
        ensures accepted { result ≡ self.old.is_open }
        ensures after { self.new ≡ after_register cell self.old }
        ensures sound { IsSound self.old × IsSound self.new }
    {
        if !self.is_open {
            return false;
        }
        self.pending = link(&mut self.rows, self.pending, cell);
        true
    }

    /// Begins a round of the cells registered since the last look. Where there are none, it closes the registry for
    /// good. No cell may be left of the last look.
    pub fn look(&mut self) -> Look
        requires { self.old.left ≡ [] }
        ensures look { result ≡ look_at self.old.pending }
        ensures after { self.new ≡ looked self.old }
        ensures sound { IsSound self.old × IsSound self.new }
    {
        let round = self.pending;
        self.pending = NOTHING;
        self.left = round;
        if round.count == 0 {
            self.is_open = false;
            return Look::Closed;
        }
        Look::Round(round.count)
    }

    /// Takes the first cell that is left of the last look, or answers `None` where no cell is left.
    pub fn next_turn(&mut self) -> Option<u32>
        ensures cell { result ≡ first_of self.old.left }
        ensures after { self.new ≡ after_turn self.old }
        ensures sound { IsSound self.old × IsSound self.new }
    {
        if self.left.count == 0 {
            return None;
        }
        let cell = self.left.first;
        let next = self.rows[cell as usize].next;
        self.left = Chain {
            count: self.left.count - 1,
            first: next,
        };
        Some(cell)
    }
}
