// The room of a network for which a store is made.
ghost use Rattle.std.specs.Prelude.{◌≡◌, IfOk, IfErr, OnOk};
ghost use Rattle.roadnet.specs.declared.refusals.Refusal.TheVariants.{TooLarge as too_large};
ghost use Rattle.roadnet.specs.Net.{IsRoomFor};
ghost use Rattle.store.specs.Migrating.{room_of, roomed};

use roadnet::{Network, Refusal};

/// The network with room for so many arcs, or, if no number is given, with its own room. It takes no memory. It fails with 9, and returns the network as it
/// was, if there are more arcs than that, or if the room is above 67,108,864.
pub fn with_given_room(network: Network, room: Option<u64>) -> Result<Network, (Refusal, Network)>
    ensures ok { IfOk result (λ net. net ≡ roomed network room) }
    ensures fits { OnOk result (IsRoomFor network (room_of network room)) }
    ensures refused { IfErr result (λ back. (back.0 ≡ too_large) × (back.1 ≡ network) × ¬ IsRoomFor network (room_of network room)) }
{
    let _ = network.room();
    match room {
        Some(room) => network.with_room(room),
        None => Ok(network),
    }
}
