// What becomes of the arcs of a map, given their counterparts. Admitted commands change them, which takes no memory.

ghost use Rattle.std.specs.Prelude.{◌≡◌, ◌≤◌, ℕ, IfOk, IsOk, option_map};
ghost use Rattle.roadnet.specs.Changes.{ChangesArc};
ghost use Rattle.roadnet.specs.Net.{IsNetwork, longest_arc, nth};
ghost use Rattle.upgrades.specs.Counterparts.{AreCounterparts};
ghost use Rattle.upgrades.specs.Renewing.{with_length, with_opened, with_renewed_length, StandsLike};
ghost use Rattle.upgrades.specs.Upgrading.{is_unchanged, renewed_by, upgraded_arc};

use roadnet::{Command, Network, Refusal, RoadArc};

/// Gives an arc a length, if there is such an arc.
fn set_length(network: &mut Network, number: u64, length: u32) -> Result<(), Refusal>
    requires { length ≤ longest_arc }
    ensures changed { ChangesArc network.old network.new number (with_length length) }
    ensures ok { IsOk result }
{
    let Some(_) = network.arc(number) else {
        return Ok(());
    };
    let wanted = u64::from(length);
    network.apply(Command::Set {
        arc: number,
        length: wanted,
    })?;
    Ok(())
}

/// Opens or closes an arc, if there is such an arc.
fn set_opened(network: &mut Network, number: u64, opened: bool) -> Result<(), Refusal>
    ensures changed { ChangesArc network.old network.new number (with_opened opened) }
    ensures ok { IsOk result }
{
    let Some(arc) = network.arc(number) else {
        return Ok(());
    };
    if arc.opened == opened {
        return Ok(());
    }
    if opened {
        network.apply(Command::Reopen { arc: number })?;
        return Ok(());
    }
    network.apply(Command::Close { arc: number })?;
    Ok(())
}

/// Whether nobody changed the stored arc's length: it is that of the same arc of the old map, if there is one.
fn is_unchanged(stored: &RoadArc, old: Option<RoadArc>) -> bool
    ensures { result ≡ is_unchanged stored.now old }
{
    match old {
        Some(arc) => arc.length == stored.length,
        None => false,
    }
}

/// Gives an arc of the map the stored arc's length, unless nobody changed that.
fn renew_length(
    network: &mut Network,
    number: u64,
    stored: &RoadArc,
    old: Option<RoadArc>,
) -> Result<(), Refusal>
    requires { stored.now.length ≤ longest_arc }
    ensures changed { ChangesArc network.old network.new number (with_renewed_length stored.now old) }
    ensures ok { IsOk result }
{
    if is_unchanged(stored, old) {
        return Ok(());
    }
    set_length(network, number, stored.length)?;
    Ok(())
}

/// Renews an arc of the map by stored arc `part`, if there are both, and by the same arc of the old map.
fn renew(
    network: &mut Network,
    number: u64,
    stored: &Network,
    old: &Network,
    part: u64,
) -> Result<(), Refusal>
    requires { IsNetwork stored.now }
    ensures changed { ChangesArc network.old network.new number (renewed_by stored.now old.now part) }
    ensures ok { IsOk result }
{
    let Some(arc) = stored.arc(part) else {
        return Ok(());
    };
    renew_length(network, number, &arc, old.arc(part))?;
    set_opened(network, number, arc.opened)?;
    Ok(())
}

/// The map `new` with each arc renewed by its counterpart, if it has one.
pub fn renew_all(
    stored: &Network,
    old: &Network,
    new: Network,
    parts: &[u32],
) -> Result<Network, Refusal>
    requires network { IsNetwork stored.now }
    requires parts { AreCounterparts stored.now.arcs new.arcs parts.now }
    ensures arcs { IfOk result (λ made. (k : ℕ) → nth made.arcs k ≡ option_map (upgraded_arc stored.now old.now new k) (nth new.arcs k)) }
    ensures others { IfOk result (λ made. StandsLike new made) }
    ensures ok { IsOk result }
{
    let mut made = new;
    for number in 1..parts.len() {
        renew(
            &mut made,
            number as u64,
            stored,
            old,
            u64::from(parts[number]),
        )?;
    }
    Ok(made)
}
