// Commands that are each a group of their own.
ghost use Rattle.std.specs.Prelude.{◌≡◌, ◌≤◌, length, take};
ghost use Rattle.pages.specs.Limits.{most_commands};
ghost use Rattle.store.specs.Committing.{alone};

use pages::MOST_COMMANDS;
use roadnet::{Command, Group};
use std::array::from_fn;

/// The groups of these commands, one command each, in their order. The array is filled up with the first one. It takes no memory.
pub fn groups_of(commands: &[Command]) -> [Group; MOST_COMMANDS]
    requires some { 1 ≤ length commands.now }
    requires few { length commands.now ≤ most_commands }
    ensures { take (length commands.now) result ≡ alone commands.now }
{
    let first = commands[0];
    let mut groups = from_fn(|_: usize| Group::one(first));
    for at in 0..commands.len() {
        groups[at] = Group::one(commands[at]);
    }
    groups
}
