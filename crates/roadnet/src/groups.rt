ghost use Rattle.std.specs.Prelude.{◌≡◌, ◌≤◌, IfOk, OnErr, MatchResult, [], ◌∷◌, length};
ghost use Rattle.roadnet.specs.declared.refusals.Refusal.TheVariants.{GroupSize as group_size};

use crate::commands::Command;
use crate::refusals::{OutOfMemory, Refusal};
use std::array::from_ref;
use std::marker::Model;

/// The greatest number of commands in a group.
pub const MOST_OF_GROUP: usize = 253;

/// How a group holds its commands.
#[derive(Debug, Drop)]
enum HeldCommands {
    One(Command),
    Many(Vec<Command>),
}

/// A group of 1 to 253 commands, which are carried out together or not at all: the step from one version to the next.
///
/// A group of one command takes no memory of its own.
#[derive(Debug, Drop)]
pub struct Group {
    held: HeldCommands,
}

impl Model for Group {
    ghost use Rattle.std.specs.Prelude.{List};
    ghost use Rattle.roadnet.specs.declared.commands.Command.{Command};

    ghost Value = { List Command };

    ghost use Rattle.roadnet.specs.Groups.{IsGroup};
    ghost use Rattle.roadnet.specs.Held.{held_in};

    ghost view = { λ g. held_in g.held };

    ghost invariant = { λ g. IsGroup (held_in g.held) };
}

impl Group {
    ghost use Rattle.roadnet.specs.Groups.{IsGroup};

    /// The group of these commands, in this order. It fails with 13 if there is none, or if there are more than 253.
    pub fn new(commands: Vec<Command>) -> Result<Group, Refusal>
        ensures group { IfOk result (λ group. group ≡ commands.items) }
        ensures size { MatchResult result (λ _. IsGroup commands.items) (λ refusal. (refusal ≡ group_size) × ¬ IsGroup commands.items) }
    {
        if commands.is_empty() || commands.len() > MOST_OF_GROUP {
            return Err(Refusal::GroupSize);
        }
        Ok(Group {
            held: HeldCommands::Many(commands),
        })
    }

    /// The group of this command alone. It takes no memory.
    pub fn one(command: Command) -> Group
        ensures { result ≡ command ∷ [] }
    {
        Group {
            held: HeldCommands::One(command),
        }
    }

    /// The 1 to 253 commands, in their order.
    pub fn commands(&self) -> &[Command]
        ensures value { result.now ≡ self.now }
        ensures group { IsGroup self.now }
    {
        match &self.held {
            HeldCommands::One(command) => from_ref(command),
            HeldCommands::Many(commands) => commands,
        }
    }

    /// A copy of this group. A group of one command takes no memory.
    pub fn copy(&self) -> Result<Group, OutOfMemory>
        ensures same { IfOk result (λ copy. copy ≡ self.now) }
        ensures few { OnErr result (2 ≤ length self.now) }
    {
        match &self.held {
            HeldCommands::One(command) => Ok(Group::one(*command)),
            HeldCommands::Many(commands) => {
                if commands.len() == 1 {
                    return Ok(Group::one(commands[0]));
                }
                let alloc = *commands.allocator();
                Ok(Group {
                    held: HeldCommands::Many(Vec::from_slice(alloc, commands)?),
                })
            }
        }
    }
}
