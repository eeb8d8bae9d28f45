//! The numbers of the arcs that groups change.

ghost use Rattle.std.specs.Prelude.{◌≡◌, ℕ, ◌≤◌, ◌<◌, ◌^◌, Some, Contains, IfOk, OnOk, flat_map};
ghost use Rattle.roadnet.specs.Step.{after};
ghost use Rattle.snapshot.specs.Blocks.{DiffersOnlyAt};
ghost use Rattle.snapshot.specs.Changes.{named_by};

use roadnet::{Command, Group, OutOfMemory};
use shared_network::SharedNetwork;
use std::alloc::{AllocError, Global};

/// The number, if an arc may have it.
fn small(arc: u64) -> Option<u32>
    ensures { arc < 2 ^ 32 → result ≡ Some arc }
{
    if arc > u64::from(u32::MAX) {
        return None;
    }
    Some(arc as u32)
}

/// The number of the arc that a command names, if an arc may have it.
fn named(command: &Command) -> Option<u32>
    ensures { (k : ℕ) → k < 2 ^ 32 → Contains (named_by command.now) k → result ≡ Some k }
{
    match command {
        Command::Set { arc, length: _ } => small(*arc),
        Command::Close { arc } => small(*arc),
        Command::Reopen { arc } => small(*arc),
        _ => None,
    }
}

/// Adds the number of the arc that a command names.
fn add_named(numbers: &mut Vec<u32>, command: &Command) -> Result<(), AllocError>
    ensures kept { OnOk result ((k : ℕ) → Contains numbers.old.items k → Contains numbers.new.items k) }
    ensures named { OnOk result ((k : ℕ) → k < 2 ^ 32 → Contains (named_by command.now) k → Contains numbers.new.items k) }
{
    if let Some(arc) = named(command) {
        numbers.push(arc)?;
    }
    Ok(())
}

/// Adds the numbers of the arcs that these commands name.
fn add_all(numbers: &mut Vec<u32>, commands: &[Command]) -> Result<(), AllocError>
    ensures kept { OnOk result ((k : ℕ) → Contains numbers.old.items k → Contains numbers.new.items k) }
    ensures named { OnOk result ((k : ℕ) → k < 2 ^ 32 → Contains (flat_map named_by commands.now) k → Contains numbers.new.items k) }
{
    for command in commands {
        add_named(numbers, command)?;
    }
    Ok(())
}

/// Adds the numbers after the first one, up to the last one.
fn add_laid(numbers: &mut Vec<u32>, first: u32, last: u32) -> Result<(), AllocError>
    ensures kept { OnOk result ((k : ℕ) → Contains numbers.old.items k → Contains numbers.new.items k) }
    ensures laid { OnOk result ((k : ℕ) → first < k → k ≤ last → Contains numbers.new.items k) }
{
    for number in first..last {
        numbers.push(number + 1)?;
    }
    Ok(())
}

/// The numbers of the arcs that groups name or lay, given the networks before and after them. All other arcs are the same in both. The only error is lack of
/// memory.
pub fn changed_arcs(
    alloc: Global,
    older: &SharedNetwork,
    newer: &SharedNetwork,
    groups: &[Group],
) -> Result<Vec<u32>, OutOfMemory>
    requires { after older.now groups.now ≡ Some newer.now }
    ensures { IfOk result (λ numbers. DiffersOnlyAt numbers.items older.now newer.now) }
{
    let mut numbers = Vec::new(alloc);
    for group in groups {
        add_all(&mut numbers, group.commands())?;
    }
    let first = older.arcs().len() as u32;
    let last = newer.arcs().len() as u32;
    add_laid(&mut numbers, first, last)?;
    Ok(numbers)
}
