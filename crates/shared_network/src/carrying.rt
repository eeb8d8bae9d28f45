//! Commands carried out on a share of a network.

ghost use Rattle.std.specs.Prelude.{◌≡◌, None, Some, OnOk, IfOk, IfErr};
ghost use Rattle.roadnet.specs.Batches.{MayRefuseGroups, changed_by};
ghost use Rattle.roadnet.specs.Step.{after, changed, first_refusal, refusal_of};

use crate::marking::{with_member, without_member};
use crate::networks::SharedNetwork;
use roadnet::{Command, Group, OutOfMemory, Refusal, RoadArc};
use std::alloc::Global;

impl SharedNetwork {
    /// Carries an admitted command out. The only error is lack of memory.
    fn carry_out(&mut self, alloc: Global, command: &Command) -> Result<(), OutOfMemory>
        requires admitted { refusal_of self.old command.now ≡ None }
        ensures { OnOk result (self.new ≡ changed self.old command.now) }
    {
        match *command {
            Command::Set { arc, length } => {
                let mut found = *self.arcs.get((arc - 1) as usize);
                found.length = length as u32;
                self.arcs.set((arc - 1) as usize, found)?;
            }
            Command::Close { arc } => {
                let mut found = *self.arcs.get((arc - 1) as usize);
                found.opened = false;
                self.arcs.set((arc - 1) as usize, found)?;
            }
            Command::Reopen { arc } => {
                let mut found = *self.arcs.get((arc - 1) as usize);
                found.opened = true;
                self.arcs.set((arc - 1) as usize, found)?;
            }
            Command::Mark { node } => {
                self.landmarks = with_member(alloc, &self.landmarks, node as u32)?;
            }
            Command::Unmark { node } => {
                self.landmarks = without_member(alloc, &self.landmarks, node as u32)?;
            }
            Command::Lay { tail, head, length } => {
                let laid = RoadArc {
                    tail: tail as u32,
                    head: head as u32,
                    length: length as u32,
                    opened: true,
                };
                self.arcs.push(laid)?;
            }
        }
        Ok(())
    }

    /// Carries commands out that are admitted, each in its turn. The only error is lack of memory.
    fn carry_out_all(&mut self, alloc: Global, commands: &[Command]) -> Result<(), OutOfMemory>
        requires admitted { first_refusal self.old commands.now ≡ None }
        ensures { OnOk result (self.new ≡ changed_by self.old commands.now) }
    {
        for command in commands {
            self.carry_out(alloc, command)?;
        }
        Ok(())
    }

    /// The network after the groups. It shares with this one what they do not change. It fails with the refusal of the first command that is not admitted
    /// after those before it; or, if all are admitted, for lack of memory (11).
    ///
    /// A change of an arc copies 1,024 of them the first time, and one of the landmarks all landmarks.
    pub fn after(&self, alloc: Global, groups: &[Group]) -> Result<SharedNetwork, Refusal>
        ensures ok { IfOk result (λ newer. after self.now groups.now ≡ Some newer) }
        ensures refused { IfErr result (MayRefuseGroups self.now groups.now) }
    {
        self.admit_groups(groups)?;
        let mut newer = self.share()?;
        for group in groups {
            newer.carry_out_all(alloc, group.commands())?;
        }
        Ok(newer)
    }
}
