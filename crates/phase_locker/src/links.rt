//! Lists of parties that are linked by number.

ghost use Rattle.std.specs.Prelude.{◌≡◌, ◌<◌, ◌++◌, ◌∷◌, [], length};
ghost use Rattle.phase_bits.specs.Records.{readers_limit};
ghost use Rattle.phase_locker.specs.Rows.{occurs, without, shared};
ghost use Rattle.phase_locker.specs.Links.{listed, IsQueue, IsRoster, LinksStay};

use crate::ways::{Row, Waiting};

/// The neighbours of a party in its list. They say nothing where the party is in no list, and neither does the one
/// before the first party of a list, or the one behind its last.
#[derive(Clone, Copy)]
pub(crate) struct Link {
    /// The party behind it.
    pub next: u32,
    /// The party before it.
    pub previous: u32,
}

/// A list of parties: how many they are, and its ends, which say nothing where it is empty.
#[derive(Clone, Copy)]
pub(crate) struct Queue {
    /// How many parties are in it.
    pub count: u32,
    /// The party that came first.
    pub first: u32,
    /// The party that came last.
    pub last: u32,
}

/// The parked calls of a cell.
#[derive(Clone, Copy)]
pub(crate) struct Queues {
    /// Those that are parked as readers.
    pub readers: Queue,
    /// Those that are parked as writers.
    pub writers: Queue,
}

/// The link of a party that was in no list yet.
pub(crate) const UNLINKED: Link = Link {
    next: 0,
    previous: 0,
};

/// A list of nobody.
pub(crate) const EMPTY: Queue = Queue {
    count: 0,
    first: 0,
    last: 0,
};

/// The party comes to the end of the queue.
pub(crate) fn append(links: &mut [Link], queue: &mut Queue, party: u32)
    requires party { party < length links.old }
    requires queue { IsQueue links.old queue.old (listed links.old queue.old) }
    requires roster { IsRoster (length links.old) (listed links.old queue.old) }
    requires apart { occurs party (listed links.old queue.old) ≡ 0 }
    requires few { queue.old.count < readers_limit }
    ensures queue { IsQueue links.new queue.new (listed links.old queue.old ++ party ∷ []) }
    ensures others { LinksStay (listed links.old queue.old ++ party ∷ []) links.old links.new }
{
    let last = queue.last;
    if queue.count == 0 {
        queue.first = party;
    } else {
        links[last as usize].next = party;
    }
    links[party as usize] = Link {
        next: party,
        previous: last,
    };
    queue.last = party;
    queue.count += 1;
}

/// The party leaves the queue, from whatever place.
pub(crate) fn unlink(links: &mut [Link], queue: &mut Queue, party: u32)
    requires queue { IsQueue links.old queue.old (listed links.old queue.old) }
    requires roster { IsRoster (length links.old) (listed links.old queue.old) }
    requires member { occurs party (listed links.old queue.old) ≡ 1 }
    ensures queue { IsQueue links.new queue.new (without party (listed links.old queue.old)) }
    ensures others { LinksStay (listed links.old queue.old) links.old links.new }
{
    let link = links[party as usize];
    if queue.first == party {
        queue.first = link.next;
    } else {
        links[link.previous as usize].next = link.next;
    }
    if queue.last == party {
        queue.last = link.previous;
    } else {
        links[link.next as usize].previous = link.previous;
    }
    queue.count -= 1;
}

/// Each party of the queue is given a read share of this cell.
pub(crate) fn share(rows: &mut [Row], links: &[Link], queue: Queue, cell: u32)
    requires same { length links.now ≡ length rows.old }
    requires roster { IsRoster (length rows.old) (listed links.now queue) }
    ensures { rows.new ≡ shared cell (listed links.now queue) rows.old }
{
    let mut party = queue.first;
    for _ in 0..queue.count {
        rows[party as usize] = Row {
            waiting: Waiting::ShareRead,
            cell,
        };
        party = links[party as usize].next;
    }
}
