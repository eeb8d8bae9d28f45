ghost use Rattle.std.specs.Prelude.{◌≡◌, ◌*◌, ◌≤◌, ◌↔◌, Ok, length, take, drop, map, IfOk, IfErr, OnOk};
ghost use Rattle.std.specs.List.{AllByRecursion};
ghost use Rattle.roadnet.specs.declared.refusals.Refusal.TheVariants.{OutOfMemory as out_of_memory};
ghost use Rattle.pages.specs.Spelling.{IsHeader, IsHead, IsEnds, IsWord, ends_of, word_of};
ghost use Rattle.storefile.specs.StoreFile.{page};
ghost use Rattle.pagereader.specs.Runs.{IsRunOf};
ghost use Rattle.pagereader.specs.Outcomes.{MayRefuse};
ghost use Rattle.pagereader.specs.Reading.{HasFileOf, ReadsToOpen};
ghost use Rattle.roadnet.specs.Net.{IsRoomFor};
ghost use Rattle.storefile.specs.Judging.{words_from};
ghost use Rattle.checkpoint.specs.Loading.{loaded_from, parts_from, HasLaid, net_of};

use crate::heads::read_head;
use crate::laid::read_laid;
use crate::words::read_words;
use disk::Disk;
use pagereader::PageReader;
use pages::{Header, Slot, SlotHead};
use roadnet::{Network, Refusal, RoadArc};
use std::alloc::{AllocError, Global};

/// Reads a slot: its head, and then its network, by the words of the arcs, whose ends are known, and the ends of those that were laid. The first page that
/// is not valid is reported as damaged. It changes nothing.
pub fn load<D: Disk>(
    alloc: Global,
    disk: &mut D,
    header: &Header,
    slot: Slot,
    reader: &mut PageReader,
    arcs: Vec<RoadArc>,
) -> Result<(SlotHead, Network), Refusal>
    requires file { HasFileOf D.Disk header.now disk.old }
    requires run { D.honest disk.old → IsRunOf (D.content disk.old) reader.old }
    requires count { length arcs.items ≡ header.now.arcs }
    requires ends { AllByRecursion (IsEnds header.now.nodes) (map ends_of arcs.items) }
    ensures loaded { D.honest disk.old → IfOk result (λ x. loaded_from (page (D.content disk.old)) header.now slot (map ends_of arcs.items) ≡ Ok x) }
    ensures fits { IfOk result (λ x. IsHead header.now x.0) }
    ensures count { IfOk result (λ x. length x.1.arcs ≡ x.0.arcs) }
    ensures refused { D.honest disk.old → IfErr result (MayRefuse (loaded_from (page (D.content disk.old)) header.now slot (map ends_of arcs.items))) }
    ensures reads { ReadsToOpen D.Disk result disk.old disk.new }
{
    let mut arcs = arcs;
    let head = read_head(alloc, disk, header, slot)?;
    let Ok(()) = add_blank(&mut arcs, head.arcs()) else {
        return Err(Refusal::OutOfMemory);
    };
    read_parts(alloc, disk, header, slot, reader, &mut arcs)?;
    let network = network_of(alloc, header, arcs, &head)?;
    Ok((head, network))
}

// Gives the arcs of a store the words from a slot, and those after the first ones their ends. The first page that is not valid is reported as damaged. It
// changes nothing on the disk.
fn read_parts<D: Disk>(
    alloc: Global,
    disk: &mut D,
    header: &Header,
    slot: Slot,
    reader: &mut PageReader,
    arcs: &mut [RoadArc],
) -> Result<(), Refusal>
    requires file { HasFileOf D.Disk header.now disk.old }
    requires run { D.honest disk.old → IsRunOf (D.content disk.old) reader.old }
    requires from { header.now.arcs ≤ length arcs.old }
    requires count { length arcs.old ≤ header.now.room }
    requires ends { AllByRecursion (IsEnds header.now.nodes) (map ends_of (take header.now.arcs arcs.old)) }
    ensures words { D.honest disk.old → OnOk result (words_from (page (D.content disk.old)) header.now slot (length arcs.old) ≡ Ok (map word_of arcs.new)) }
    ensures laid { D.honest disk.old → OnOk result (HasLaid (page (D.content disk.old)) header.now slot arcs.old arcs.new) }
    ensures first { OnOk result (map ends_of (take header.now.arcs arcs.new) ≡ map ends_of (take header.now.arcs arcs.old)) }
    ensures word_fits { OnOk result (AllByRecursion IsWord (map word_of arcs.new)) }
    ensures ends_fit { OnOk result (AllByRecursion (IsEnds header.now.nodes) (map ends_of arcs.new)) }
    ensures count { length arcs.new ≡ length arcs.old }
    ensures refused { D.honest disk.old → IfErr result (MayRefuse (parts_from (page (D.content disk.old)) header.now slot (length arcs.old))) }
    ensures reads { ReadsToOpen D.Disk result disk.old disk.new }
{
    read_words(alloc, disk, header, slot, reader, arcs)?;
    read_laid(alloc, disk, header, slot, reader, arcs)
}

// The network of these parts, which have no flaw.
fn network_of(
    alloc: Global,
    header: &Header,
    arcs: Vec<RoadArc>,
    head: &SlotHead,
) -> Result<Network, Refusal>
    requires header { IsHeader header.now }
    requires head { IsHead header.now head.now }
    requires count { length arcs.items ≡ head.now.arcs }
    requires ends { AllByRecursion (IsEnds header.now.nodes) (map ends_of arcs.items) }
    requires words { AllByRecursion IsWord (map word_of arcs.items) }
    ensures network { IfOk result (λ net. net ≡ net_of header.now arcs.items head.now header.now.room) }
    ensures refused { IfErr result (λ refusal. refusal ≡ out_of_memory) }
{
    let network = Network::new(alloc, header.nodes, arcs, head.landmarks())?;
    Ok(with_room(network, header.room))
}

// The network with this room, which is large enough for its arcs.
fn with_room(network: Network, room: u32) -> Network
    requires { IsRoomFor network room }
    ensures { result ≡ record network { room = room } }
{
    match network.with_room(u64::from(room)) {
        Ok(network) => network,
        Err(_) => unreachable!(),
    }
}

// Appends arcs whose ends and words are not known yet, until there are so many.
fn add_blank(arcs: &mut Vec<RoadArc>, count: u32) -> Result<(), AllocError>
    requires { length arcs.old.items ≤ count }
    ensures count { OnOk result (length arcs.new.items ≡ count) }
    ensures first { OnOk result (take (length arcs.old.items) arcs.new.items ≡ arcs.old.items) }
{
    for _ in arcs.len()..count as usize {
        arcs.push(RoadArc {
            tail: 0,
            head: 0,
            length: 0,
            opened: true,
        })?;
    }
    Ok(())
}
