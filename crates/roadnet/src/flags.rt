// For each arc whether it is open: changed by admitted commands, and changed back.

ghost use Rattle.std.specs.Prelude.{◌≡◌, ℕ, List, true, OnOk, OnErr, fold};
ghost use Rattle.roadnet.specs.Net.{update_nth};
ghost use Rattle.roadnet.specs.Batches.{changed_landmarks};
ghost use Rattle.roadnet.specs.Flags.{changed_flags, flag_before, flags_before, AreFlagsOfAdmitting};

use crate::commands::Command;
use std::alloc::AllocError;

/// Sets the flag of arc `k`, if there is one.
fn set_flag(flags: &mut [bool], k: u64, opened: bool)
    ensures { flags.new ≡ update_nth (λ _. opened) flags.old k }
{
    if k == 0 {
        return;
    }
    if k > flags.len() as u64 {
        return;
    }
    flags[(k - 1) as usize] = opened;
}

/// Changes the flag of the arc that the command names, or adds a flag. It takes memory for a new arc.
fn change_flag(flags: &mut Vec<bool>, command: &Command) -> Result<(), AllocError>
    ensures ok { OnOk result (flags.new.items ≡ changed_flags flags.old.items command.now) }
    ensures err { OnErr result (flags.new.items ≡ flags.old.items) }
{
    match *command {
        Command::Set { arc: _, length: _ } => {}
        Command::Close { arc } => set_flag(flags, arc, false),
        Command::Reopen { arc } => set_flag(flags, arc, true),
        Command::Mark { node: _ } => {}
        Command::Unmark { node: _ } => {}
        Command::Lay {
            tail: _,
            head: _,
            length: _,
        } => flags.push(true)?,
    }
    Ok(())
}

/// Undoes the change of one admitted command.
fn restore_flag(flags: &mut Vec<bool>, command: &Command)
    ensures { flags.new.items ≡ flag_before flags.old.items command.now }
{
    match *command {
        Command::Set { arc: _, length: _ } => {}
        Command::Close { arc } => set_flag(flags, arc, true),
        Command::Reopen { arc } => set_flag(flags, arc, false),
        Command::Mark { node: _ } => {}
        Command::Unmark { node: _ } => {}
        Command::Lay {
            tail: _,
            head: _,
            length: _,
        } => {
            flags.pop();
        }
    }
}

/// Undoes the changes of admitted commands, the last one first.
pub fn restore_flags(flags: &mut Vec<bool>, commands: &[Command])
    ensures { flags.new.items ≡ flags_before flags.old.items commands.now }
{
    let mut left = commands.len();
    while left > 0 {
        left -= 1;
        restore_flag(flags, &commands[left]);
    }
}

/// Changes the flags by admitted commands, the first one first: all of them or none.
pub fn change_flags(flags: &mut Vec<bool>, commands: &[Command]) -> Result<(), AllocError>
    requires { AreFlagsOfAdmitting flags.old.items commands.now }
    ensures ok { OnOk result (flags.new.items ≡ fold changed_flags flags.old.items commands.now) }
    ensures back { OnOk result (flags_before flags.new.items commands.now ≡ flags.old.items) }
    ensures err { OnErr result (flags.new.items ≡ flags.old.items) }
{
    for (i, command) in commands.iter().enumerate() {
        if let Err(error) = change_flag(flags, command) {
            restore_flags(flags, &commands[..i]);
            return Err(error);
        }
    }
    Ok(())
}

/// Whether the commands name no node, so that the landmarks do not change.
pub fn names_no_node(commands: &[Command]) -> bool
    ensures { result ≡ true → (landmarks : List ℕ) → fold changed_landmarks landmarks commands.now ≡ landmarks }
{
    for command in commands {
        match *command {
            Command::Mark { node: _ } => return false,
            Command::Unmark { node: _ } => return false,
            Command::Set { arc: _, length: _ } => {}
            Command::Close { arc: _ } => {}
            Command::Reopen { arc: _ } => {}
            Command::Lay {
                tail: _,
                head: _,
                length: _,
            } => {}
        }
    }
    true
}
