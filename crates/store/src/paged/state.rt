// The pages of a store. They are apart from `Store`: what holds of them speaks of headers and sequences, which no contract of a store names.
ghost use Rattle.std.specs.Prelude.{◌≡◌, ◌≤◌, false, length, IfSome};
ghost use Rattle.std.proofs.Props.{props};
ghost use Rattle.pages.specs.declared.content.Format.TheVariants.{Two as two};
ghost use Rattle.storefile.specs.Standing.{HasFitStoreNumbers};
ghost use Rattle.store.specs.Resting.{IsAtRest};
ghost use Rattle.store.specs.Going.{FitsStore, FrozenGoesOn};

use crate::opened::found::Found;
use crate::paged::going::GoingCheckpoint;
use disk::Disk;
use std::alloc::Global;

/// The pages of a store: its disk, and what is known of them.
#[derive(Drop)]
pub struct Paged<D: Disk> {
    pub(crate) alloc: Global,
    pub(crate) disk: D,
    /// Where it stands in its file.
    pub(crate) found: Found,
    /// A write of the disk failed.
    pub(crate) broken: bool,
    /// The checkpoint that is going.
    pub(crate) going: Option<GoingCheckpoint>,
    ghost numbers: { HasFitStoreNumbers found.header found.epoch found.version found.next_sequence found.unchecked },
    ghost today: { found.header.format ≡ two },
    ghost arcs_from: { found.header.arcs ≤ length found.network.arcs },
    ghost rests: { broken ≡ false → D.honest disk → IsAtRest (D.content disk) (D.left disk) found.header },
    ghost fits: { IfSome going (λ g. FitsStore found.header found.slot found.epoch found.version found.next_sequence found.unchecked g.next g.committed) } by { Prim.hlevel props },
    ghost goes_on: { broken ≡ false → D.honest disk → ∥ IfSome going (λ g. FrozenGoesOn (D.content disk) found.header g found.network found.version found.next_sequence) ∥₁ },
}
