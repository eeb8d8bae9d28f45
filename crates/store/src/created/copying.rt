// A store made from another one: a copy, with its room and journal or with others, or one of the previous format that is migrated.
ghost use Rattle.std.specs.Prelude.{◌≤◌, None};
ghost use Rattle.std.specs.Option.{ForSome};
ghost use Rattle.pages.specs.declared.content.Format.TheVariants.{One as one, Two as two};
ghost use Rattle.store.specs.Migrating.{Copies};

use crate::created::rooms::with_given_room;
use crate::opened::found::Found;
use crate::opened::opening::find;
use crate::stores::making::create_at;
use crate::stores::store::Store;
use disk::{Disk, length_of};
use pages::Format;
use roadnet::Refusal;
use std::alloc::Global;

/// Makes a store as `copy` does, from one of this format on the disk `old`.
pub fn copy_in<O: Disk, D: Disk>(
    alloc: Global,
    old: &mut O,
    new: D,
    format: Format,
    room: Option<u64>,
    journal: Option<u32>,
) -> Result<Store<D>, (Refusal, D)>
    requires journal { ForSome journal (λ pages. (1 ≤ pages) × (pages ≤ 65536)) }
    ensures { Copies O.Disk D.Disk format room journal old.old old.new new result }
{
    let mut new = new;
    let Ok(length) = length_of(&mut new) else {
        return Err((Refusal::Device, new));
    };
    if length != 0 {
        return Err((Refusal::NotEmpty, new));
    }
    let found = match find(alloc, old, format) {
        Ok(found) => found,
        Err(refusal) => return Err((refusal, new)),
    };
    let Found {
        header,
        network,
        version,
        ..
    } = found;
    let network = match with_given_room(network, room) {
        Ok(network) => network,
        Err((refusal, _)) => return Err((refusal, new)),
    };
    let journal_pages = journal.unwrap_or(header.journal_pages);
    create_at(alloc, new, &network, version, journal_pages)
}

/// Makes a store on the empty disk `new`, of the network for which the store on the disk `old` stands, at its version, with room for so many arcs and with
/// so many journal pages, 1 to 65,536. If one of the two is not given, it is that of the old store.
///
/// It is refused, in this order, if the new disk is not empty (46), if opening refuses the old store (40, 41, 42), if the room is below the number of arcs
/// or above 67,108,864 (9), or for lack of memory (11). 43 may come at each call of either disk. Then the new disk is handed back. The old one is only
/// read: its content stays, and so does what a stop may leave of it.
///
/// It takes the memory of opening the old store, a copy of its network, and 64 pages.
///
/// From a store of `examples/six.gr` after `close 7` it makes one of version 1; with room for 10 arcs and 2 journal pages, a file of 10 pages.
pub fn copy<O: Disk, D: Disk>(
    alloc: Global,
    old: &mut O,
    new: D,
    room: Option<u64>,
    journal: Option<u32>,
) -> Result<Store<D>, (Refusal, D)>
    requires journal { ForSome journal (λ pages. (1 ≤ pages) × (pages ≤ 65536)) }
    ensures { Copies O.Disk D.Disk two room journal old.old old.new new result }
{
    copy_in(alloc, old, new, Format::Two, room, journal)
}

/// Makes a store on the empty disk `new`, of the network for which the store of format 1 on the disk `old` stands, at its version and with its journal
/// pages, and with room for so many arcs. If no room is given, it has room for the arcs that there are.
///
/// It is refused, in this order, if the new disk is not empty (46), if opening refuses the old store, where each format except 1 is another format (40, 41,
/// 42), if the room is below the number of arcs or above 67,108,864 (9), or for lack of memory (11). 43 may come at each call of either disk. Then the new
/// disk is handed back. The old one is only read: its content stays, and so does what a stop may leave of it.
///
/// It takes the memory of opening the old store, a copy of its network, and 64 pages.
pub fn migrate<O: Disk, D: Disk>(
    alloc: Global,
    old: &mut O,
    new: D,
    room: Option<u64>,
) -> Result<Store<D>, (Refusal, D)>
    ensures { Copies O.Disk D.Disk one room None old.old old.new new result }
{
    copy_in(alloc, old, new, Format::One, room, None)
}
