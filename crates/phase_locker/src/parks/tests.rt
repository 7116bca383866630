//! Parties park on two cells in turn, leave from the middle, and are given shares, beside a plain list of the parked.

ghost use Rattle.std.specs.Prelude.{◌≡◌, length};

use crate::links::{Link, Queue, UNLINKED};
use crate::parks::Parks;
use crate::ways::Waiting;
use std::alloc::{AllocError, Global};
use std::process::Abort;
use std::test::Fail;

/// A parked call.
#[derive(Clone, Copy)]
struct Parked {
    party: u32,
    cell: u32,
    reads: bool,
}

/// The parties of a queue, from the first on.
fn forth(alloc: Global, links: &[Link], queue: Queue) -> Result<Vec<u32>, AllocError> {
    let mut parties = Vec::new(alloc);
    let mut party = queue.first;
    for _ in 0..queue.count {
        parties.push(party)?;
        party = links.get(party as usize).copied().unwrap_or(UNLINKED).next;
    }
    Ok(parties)
}

/// The parties of a queue, from the last on.
fn back(alloc: Global, links: &[Link], queue: Queue) -> Result<Vec<u32>, AllocError> {
    let mut parties = Vec::new(alloc);
    let mut party = queue.last;
    for _ in 0..queue.count {
        parties.push(party)?;
        party = links
            .get(party as usize)
            .copied()
            .unwrap_or(UNLINKED)
            .previous;
    }
    Ok(parties)
}

/// Whether a queue has exactly the parties that the plain list has for it, forth and back.
fn is_list(
    alloc: Global,
    links: &[Link],
    queue: Queue,
    plain: &[Parked],
    cell: u32,
    reads: bool,
) -> Result<bool, AllocError> {
    let wanted: Vec<u32> = plain
        .iter()
        .filter(|call| call.cell == cell && call.reads == reads)
        .map(|call| call.party)
        .collect(alloc)?;
    let mut turned: Vec<u32> = Vec::from_slice(alloc, &wanted)?;
    turned.reverse();
    Ok(forth(alloc, links, queue)? == wanted && back(alloc, links, queue)? == turned)
}

/// Whether all queues are as the plain list says.
fn is_shown(alloc: Global, parks: &Parks, plain: &[Parked]) -> Result<bool, AllocError> {
    let links = parks.links.as_slice();
    for cell in 0..2 {
        let Some(queues) = parks.queues.get(cell as usize) else {
            return Ok(false);
        };
        let is_read = is_list(alloc, links, queues.readers, plain, cell, true)?;
        let is_written = is_list(alloc, links, queues.writers, plain, cell, false)?;
        if !is_read || !is_written {
            return Ok(false);
        }
    }
    Ok(true)
}

/// The party parks. The process ends where it may not.
fn park(
    rt: &impl Abort,
    parks: &mut Parks,
    plain: &mut Vec<Parked>,
    call: Parked,
) -> Result<(), AllocError> {
    if call.cell as usize >= parks.cells() {
        rt.abort()
    }
    if call.party as usize >= parks.rows().len() {
        rt.abort()
    }
    if parks.waiting(call.party) != Waiting::Free {
        rt.abort()
    }
    if call.reads {
        parks.park_reader(call.cell, call.party);
    } else {
        parks.park_writer(call.cell, call.party);
    }
    plain.push(call)?;
    Ok(())
}

/// The party waits no longer. The process ends where there is none.
fn leave(rt: &impl Abort, parks: &mut Parks, plain: &mut Vec<Parked>, party: u32) {
    if party as usize >= parks.rows().len() {
        rt.abort()
    }
    parks.free(party);
    plain.retain(|call| call.party != party);
}

/// The first writer of the cell is given a share. The process ends where it is not the plain list's.
fn give_writer(rt: &impl Abort, parks: &mut Parks, plain: &mut Vec<Parked>, cell: u32) {
    if cell as usize >= parks.cells() {
        rt.abort()
    }
    let wanted = plain
        .iter()
        .find(|call| call.cell == cell && !call.reads)
        .map(|call| call.party);
    match parks.first_writer(cell) {
        Some(party) => {
            if wanted != Some(party) {
                rt.abort()
            }
            parks.give_writer(cell, party);
            plain.retain(|call| call.party != party);
        }
        None => rt.abort(),
    }
}

/// The readers of the cell are given shares. Answers how many there were. The process ends where there is no such cell.
fn give_readers(rt: &impl Abort, parks: &mut Parks, plain: &mut Vec<Parked>, cell: u32) -> u32 {
    if cell as usize >= parks.cells() {
        rt.abort()
    }
    let count = parks.give_readers(cell);
    plain.retain(|call| call.cell != cell || !call.reads);
    count
}

#[test]
fn the_lists_are_those_of_a_plain_model(rt: HostRuntime) -> Result<(), Fail> {
    let mut parks = Parks::new(rt.alloc(), 2, 12)?;
    let mut plain: Vec<Parked> = Vec::new(rt.alloc());
    for party in 0..12 {
        let call = Parked {
            party,
            cell: party % 2,
            reads: party % 3 != 0,
        };
        park(&rt, &mut parks, &mut plain, call)?;
        assert!(rt; is_shown(rt.alloc(), &parks, &plain)?);
    }
    for party in [4, 6, 1, 11] {
        leave(&rt, &mut parks, &mut plain, party);
        assert!(rt; is_shown(rt.alloc(), &parks, &plain)?);
    }
    give_writer(&rt, &mut parks, &mut plain, 1);
    assert!(rt; is_shown(rt.alloc(), &parks, &plain)?);
    assert_eq!(rt; give_readers(&rt, &mut parks, &mut plain, 0), 3);
    assert!(rt; is_shown(rt.alloc(), &parks, &plain)?);
    let again = Parked {
        party: 6,
        cell: 1,
        reads: true,
    };
    park(&rt, &mut parks, &mut plain, again)?;
    give_writer(&rt, &mut parks, &mut plain, 0);
    assert!(rt; is_shown(rt.alloc(), &parks, &plain)?);
    assert_eq!(rt; give_readers(&rt, &mut parks, &mut plain, 0), 0);
    assert_eq!(rt; give_readers(&rt, &mut parks, &mut plain, 1), 3);
    assert!(rt; is_shown(rt.alloc(), &parks, &plain)?);
    assert_eq!(rt; plain.len(), 1);
    Ok(())
}
