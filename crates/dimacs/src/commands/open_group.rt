//! The group in which lines of a text are.
ghost use Rattle.std.specs.Prelude.{◌≡◌, ◌++◌, [], ◌∷◌, true, false, None, Some, option_map, is_some, OnOk, OnErr, IfOk, IfErr};
ghost use Rattle.roadnet.specs.Groups.{IsGroup};
ghost use Rattle.dimacs.specs.OpenGroups.{is_full_group, IsUnended, IsNotAdded};

use crate::fault::Code;
use roadnet::{Command, Group, MOST_OF_GROUP};
use std::alloc::Global;
use std::marker::Model;

/// The commands of the group that is open, if one is. Contracts see it as the list of these. It takes 32 bytes a command.
#[derive(Drop)]
pub struct OpenGroup {
    alloc: Global,
    commands: Option<Vec<Command>>,
}

impl Model for OpenGroup {
    ghost use Rattle.std.specs.Prelude.{◌≤◌, length, List, Option, IfSome, option_map, vec_items};
    ghost use Rattle.roadnet.specs.declared.commands.Command.{Command};
    ghost use Rattle.roadnet.specs.Groups.{most_of_group};

    ghost Value = { Option (List Command) };

    ghost view = { λ o. option_map vec_items o.commands };

    ghost invariant = { λ o. IfSome (option_map vec_items o.commands) (λ commands. length commands ≤ most_of_group) };
}

impl OpenGroup {
    /// No group is open. It takes no memory.
    pub fn none(alloc: Global) -> OpenGroup
        ensures { result ≡ None }
    {
        OpenGroup {
            alloc,
            commands: None,
        }
    }

    /// Whether a group is open.
    pub fn is_open(&self) -> bool
        ensures { result ≡ is_some self.now }
    {
        self.commands.is_some()
    }

    /// Opens a group without a command. It fails with `BadLine` if one is open, and that one stays open.
    pub fn begin(&mut self) -> Result<(), Code>
        ensures ok { OnOk result ((self.old ≡ None) × (self.new ≡ Some [])) }
        ensures refused { IfErr result (λ code. (code ≡ Code.BadLine) × (is_some self.old ≡ true)) }
        ensures same { OnErr result (self.new ≡ self.old) }
    {
        if self.commands.is_some() {
            return Err(Code::BadLine);
        }
        self.commands = Some(Vec::new(self.alloc));
        Ok(())
    }

    /// Closes the group and returns it. It fails with `BadLine` if none is open, and with `GroupSize` if the group has no command. Whatever it returns, no
    /// group is open afterwards.
    pub fn end(&mut self) -> Result<Group, Code>
        ensures ok { IfOk result (λ group. (self.old ≡ Some group) × IsGroup group) }
        ensures refused { IfErr result (IsUnended self.old) }
        ensures shut { self.new ≡ None }
    {
        let Some(commands) = self.commands.take() else {
            return Err(Code::BadLine);
        };
        match Group::new(commands) {
            Ok(group) => Ok(group),
            Err(_) => Err(Code::GroupSize),
        }
    }

    /// Adds a command to the open group. It fails with `GroupSize` for a 254th command, and with `OutOfMemory` for lack of memory. Then the group is as it
    /// was.
    pub fn add(&mut self, command: Command) -> Result<(), Code>
        requires { is_some self.old ≡ true }
        ensures ok { OnOk result ((is_full_group self.old ≡ false) × (self.new ≡ option_map (λ commands. commands ++ command ∷ []) self.old)) }
        ensures refused { IfErr result (IsNotAdded self.old) }
        ensures same { OnErr result (self.new ≡ self.old) }
    {
        let Some(commands) = &mut self.commands else {
            unreachable!();
        };
        if commands.len() >= MOST_OF_GROUP {
            return Err(Code::GroupSize);
        }
        match commands.push(command) {
            Ok(()) => Ok(()),
            Err(_) => Err(Code::OutOfMemory),
        }
    }
}
