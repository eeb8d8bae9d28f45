// A store made on an empty disk, and a store that is opened.
ghost use Rattle.std.specs.Prelude.{◌≡◌, ◌≢◌, ◌⊎◌, ◌≤◌, ◌↔◌, List, ℕ, [], length, false, None, IfOk, IfErr, MatchResult};
ghost use Rattle.roadnet.specs.declared.refusals.Refusal.TheVariants.{OutOfMemory as out_of_memory, Device as device, NotEmpty as not_empty};
ghost use Rattle.disk.specs.Contents.{Only, Rose};
ghost use Rattle.disk.specs.Moments.{StaysSame};
ghost use Rattle.pagereader.specs.Outcomes.{MayEndOpening};
ghost use Rattle.pages.specs.declared.content.Slot.TheVariants.{A as slot_a};
ghost use Rattle.pages.specs.Limits.{most_versions};
ghost use Rattle.store.specs.Created.{IsNewFile};
ghost use Rattle.store.specs.Opening.{HeaderFits, IsPassing, MayRefuseToOpen, IsStoreFile};
ghost use Rattle.store.specs.State.{checkpoint_pages_of, IsCountedBy, IsNewFor, IsTidy, HasTold, HasVersion, told};

use crate::created::creation::create_paged;
use crate::opened::opening::open_paged;
use crate::stores::in_flight::InFlight;
use crate::stores::store::Store;
use disk::Disk;
use roadnet::{Network, Refusal};
use std::alloc::Global;
use std::snapshot::Snapshot;

/// Makes a store of the network at this version, at most 2^48, with so many journal pages, 1 to 65,536.
///
/// It is refused with 46 if the disk is not empty, with 43 if the disk fails, and with 11 for lack of memory. Then the disk is handed back, at 46 and 11
/// with its content as it was. It takes linear time, and memory for a copy of the network and 64 pages.
pub fn create_at<D: Disk>(
    alloc: Global,
    disk: D,
    network: &Network,
    version: u64,
    journal_pages: u32,
) -> Result<Store<D>, (Refusal, D)>
    requires versions { version ≤ most_versions }
    requires some { 1 ≤ journal_pages }
    requires few { journal_pages ≤ 65536 }
    ensures network { IfOk result (λ store. store.network ≡ network.now) }
    ensures version { IfOk result (λ store. store.version ≡ version) }
    ensures journal_pages { IfOk result (λ store. store.journal_pages ≡ journal_pages) }
    // A checkpoint writes what the network's room needs.
    ensures checkpoint_pages { IfOk result (λ store. store.checkpoint_pages ≡ checkpoint_pages_of (length network.now.arcs) network.now) }
    ensures unchecked { IfOk result (λ store. store.unchecked ≡ 0) }
    ensures slot { IfOk result (λ store. (store.slot ≡ slot_a) × (store.epoch ≡ 1)) }
    ensures works { IfOk result (λ store. store.broken ≡ false) }
    ensures none_going { IfOk result (λ store. store.going ≡ None) }
    ensures none_in_flight { IfOk result (λ store. store.in_flight ≡ []) }
    ensures given { IfOk result (λ store. store.given ≡ store.disk) }
    // The content stands for the network at this version and is tidy. It has this many journal pages and slots for the network's room, and a stop may leave
    // nothing else.
    ensures stands { D.honest disk → IfOk result (λ store. IsNewFor journal_pages network.now version (D.content store.disk)) }
    // The file is that of a new store: it has all its arcs from the beginning, and its journal begins with page 0.
    ensures made { D.honest disk → IfOk result (λ store. IsNewFile journal_pages network.now version (D.content store.disk)) }
    ensures only { D.honest disk → IfOk result (λ store. Only (D.content store.disk) (D.left store.disk)) }
    ensures tidy { D.honest disk → IfOk result (λ store. IsTidy (D.content store.disk)) }
    ensures told { D.honest disk → IfOk result (λ store. HasTold (D.content store.disk) (told store)) }
    ensures empty { D.honest disk → IfOk result (λ store. D.content disk ≡ []) }
    ensures refused { IfErr result (λ refused. (refused.0 ≡ not_empty) ⊎ ((refused.0 ≡ device) ⊎ (refused.0 ≡ out_of_memory))) }
    ensures not_empty { D.honest disk → IfErr result (λ refused. refused.0 ≡ not_empty → D.content disk ≢ []) }
    ensures order { D.honest disk → IfErr result (λ refused. refused.0 ≡ out_of_memory → D.content disk ≡ []) }
    // The count of failures rises by one if 43 is reported, and otherwise not at all.
    ensures counted { MatchResult result (λ store. D.failures store.disk ≡ D.failures disk) (IsCountedBy D.failures disk) }
    ensures failed { IfErr result (λ refused. refused.0 ≡ device → Rose (D.failures disk) (D.failures refused.1)) }
    ensures same { D.honest disk → IfErr result (λ refused. refused.0 ≢ device → StaysSame D.content D.left D.moment D.left_since disk refused.1) }
    ensures honest { (IfOk result (λ store. D.honest store.disk ↔ D.honest disk)) × (IfErr result (λ refused. D.honest refused.1 ↔ D.honest disk)) }
{
    let pages = create_paged(alloc, disk, network, version, journal_pages)?;
    let given = Snapshot::of(&pages.disk);
    let in_flight = InFlight::none();
    Ok(Store {
        pages,
        given,
        in_flight,
    })
}

/// Makes a store of the network with so many journal pages, 1 to 65,536, at version 0, as `create_at` does at any version.
///
/// It is refused with 46 if the disk is not empty, with 43 if the disk fails, and with 11 for lack of memory. Then the disk is handed back, at 46 and 11
/// with its content as it was. It takes linear time, and memory for a copy of the network and 64 pages.
///
/// With 64 journal pages, the store of `examples/six.gr` is a file of 70 pages: the header, one page of arcs, two slots with a head and one page of words
/// each, and the journal. With room for 10 arcs each slot also has a page of ends, and there are 72 pages.
pub fn create<D: Disk>(
    alloc: Global,
    disk: D,
    network: &Network,
    journal_pages: u32,
) -> Result<Store<D>, (Refusal, D)>
    requires some { 1 ≤ journal_pages }
    requires few { journal_pages ≤ 65536 }
    ensures network { IfOk result (λ store. store.network ≡ network.now) }
    ensures version { IfOk result (λ store. store.version ≡ 0) }
    ensures journal_pages { IfOk result (λ store. store.journal_pages ≡ journal_pages) }
    // A checkpoint writes what the network's room needs.
    ensures checkpoint_pages { IfOk result (λ store. store.checkpoint_pages ≡ checkpoint_pages_of (length network.now.arcs) network.now) }
    ensures unchecked { IfOk result (λ store. store.unchecked ≡ 0) }
    ensures slot { IfOk result (λ store. (store.slot ≡ slot_a) × (store.epoch ≡ 1)) }
    ensures works { IfOk result (λ store. store.broken ≡ false) }
    ensures none_going { IfOk result (λ store. store.going ≡ None) }
    ensures none_in_flight { IfOk result (λ store. store.in_flight ≡ []) }
    ensures given { IfOk result (λ store. store.given ≡ store.disk) }
    // The content stands for the network at version 0 and is tidy. It has this many journal pages and slots for the network's room, and a stop may leave
    // nothing else.
    ensures stands { D.honest disk → IfOk result (λ store. IsNewFor journal_pages network.now 0 (D.content store.disk)) }
    // The file is that of a new store: it has all its arcs from the beginning, and its journal begins with page 0.
    ensures made { D.honest disk → IfOk result (λ store. IsNewFile journal_pages network.now 0 (D.content store.disk)) }
    ensures only { D.honest disk → IfOk result (λ store. Only (D.content store.disk) (D.left store.disk)) }
    ensures tidy { D.honest disk → IfOk result (λ store. IsTidy (D.content store.disk)) }
    ensures told { D.honest disk → IfOk result (λ store. HasTold (D.content store.disk) (told store)) }
    ensures empty { D.honest disk → IfOk result (λ store. D.content disk ≡ []) }
    ensures refused { IfErr result (λ refused. (refused.0 ≡ not_empty) ⊎ ((refused.0 ≡ device) ⊎ (refused.0 ≡ out_of_memory))) }
    ensures not_empty { D.honest disk → IfErr result (λ refused. refused.0 ≡ not_empty → D.content disk ≢ []) }
    ensures order { D.honest disk → IfErr result (λ refused. refused.0 ≡ out_of_memory → D.content disk ≡ []) }
    // The count of failures rises by one if 43 is reported, and otherwise not at all.
    ensures counted { MatchResult result (λ store. D.failures store.disk ≡ D.failures disk) (IsCountedBy D.failures disk) }
    ensures failed { IfErr result (λ refused. refused.0 ≡ device → Rose (D.failures disk) (D.failures refused.1)) }
    ensures same { D.honest disk → IfErr result (λ refused. refused.0 ≢ device → StaysSame D.content D.left D.moment D.left_since disk refused.1) }
    ensures honest { (IfOk result (λ store. D.honest store.disk ↔ D.honest disk)) × (IfErr result (λ refused. D.honest refused.1 ↔ D.honest disk)) }
{
    create_at(alloc, disk, network, 0, journal_pages)
}

/// Opens the store on a disk. It syncs, and then judges and reads the whole file in the order of the format. It writes nothing. The first refusal ends it,
/// and hands the disk back: the file is not a store (40), it has another format (41), or a page is damaged (42). At each step the disk may fail (43). After
/// the header there may be no memory (11).
///
/// It takes one pass over the arc pages and the current slot, the network, and 256 KiB for pages.
///
/// Of the 70 pages of `examples/six.gr`: with another first byte it is refused with `NotAStore`, with another number of the format with `WrongFormat`, and
/// cut to 69 pages with `Damaged { page: 0 }`.
pub fn open<D: Disk>(alloc: Global, disk: D) -> Result<Store<D>, (Refusal, D)>
    // The content stands for the store's network and version, and a stop may leave nothing else.
    ensures stands { D.honest disk → IfOk result (λ store. HasVersion (D.content disk) store.network store.version) }
    ensures told { D.honest disk → IfOk result (λ store. HasTold (D.content disk) (told store)) }
    ensures at_rest { D.honest disk → IfOk result (λ store. Only (D.content store.disk) (D.left store.disk)) }
    ensures works { IfOk result (λ store. store.broken ≡ false) }
    ensures none_going { IfOk result (λ store. store.going ≡ None) }
    ensures none_in_flight { IfOk result (λ store. store.in_flight ≡ []) }
    ensures given { IfOk result (λ store. store.given ≡ store.disk) }
    // Nothing is written, and a stop may leave no more than before.
    ensures same { D.honest disk → IfOk result (λ store. StaysSame D.content D.left D.moment D.left_since disk store.disk) }
    ensures handed_back { D.honest disk → IfErr result (λ refused. StaysSame D.content D.left D.moment D.left_since disk refused.1) }
    // It refuses what the format refuses. Its other refusals are for lack of memory, or because the disk failed in this call.
    ensures judged { D.honest disk → IfErr result (λ refused. MayRefuseToOpen (D.content disk) refused.0) }
    // Lack of memory is reported only if the header fits the file.
    ensures order { D.honest disk → IfErr result (λ refused. refused.0 ≡ out_of_memory → HeaderFits (D.content disk)) }
    // Whatever the disk, it refuses with 11 or 40 to 43. Its count of failures rises by one if 43 is reported, and otherwise not at all.
    ensures causes { IfErr result (λ refused. MayEndOpening refused.0) }
    ensures counted { MatchResult result (λ store. D.failures store.disk ≡ D.failures disk) (IsCountedBy D.failures disk) }
    ensures failed { IfErr result (λ refused. refused.0 ≡ device → Rose (D.failures disk) (D.failures refused.1)) }
    ensures opens { D.honest disk → ((c : List ℕ) → D.left disk c → IsStoreFile c) → IfErr result (λ refused. IsPassing refused.0) }
    ensures honest { (IfOk result (λ store. D.honest store.disk ↔ D.honest disk)) × (IfErr result (λ refused. D.honest refused.1 ↔ D.honest disk)) }
{
    let pages = open_paged(alloc, disk)?;
    let given = Snapshot::of(&pages.disk);
    let in_flight = InFlight::none();
    Ok(Store {
        pages,
        given,
        in_flight,
    })
}
