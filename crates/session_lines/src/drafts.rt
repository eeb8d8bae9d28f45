//! The group in which lines of a session are.
ghost use Rattle.std.specs.Prelude.{MatchResult};
ghost use Rattle.session_lines.specs.Drafts.{Drafted, no_draft, with_fault, draft_with_command, with_line, IsDraft, IsNoGroup, IsWhole};

use crate::lines::Line;
use dimacs::Code;
use roadnet::{Command, Group, MOST_OF_GROUP};
use std::alloc::Global;

/// What the lines of a group say so far. It takes 32 bytes a command.
#[derive(Drop)]
pub enum Draft {
    /// These commands, and no line has a fault.
    Whole(Vec<Command>),
    /// So many commands, and no line has a fault. There was no memory for one of them.
    Unkept(usize),
    /// The fault of the first line that has one.
    Faulty(Code),
}

/// Why lines give no group.
#[derive(Clone, Copy)]
pub enum NoGroup {
    /// A line has this fault, or there is no command (`GroupSize`).
    Fault(Code),
    /// There was no memory for the commands.
    NoMemory,
}

/// These commands and one more.
fn added(mut commands: Vec<Command>, command: Command) -> Draft
    ensures { (draft : Drafted) → IsDraft draft (Draft.Whole commands) → IsDraft (draft_with_command draft command) result }
{
    let count = commands.len();
    if count >= MOST_OF_GROUP {
        return Draft::Faulty(Code::GroupSize);
    }
    match commands.push(command) {
        Ok(()) => Draft::Whole(commands),
        Err(_) => Draft::Unkept(count + 1),
    }
}

impl Draft {
    /// No line so far.
    pub fn new(alloc: Global) -> Draft
        ensures { IsDraft no_draft result }
    {
        Draft::Whole(Vec::new(alloc))
    }

    /// With one more line, which has this fault.
    fn faulty(self, code: Code) -> Draft
        ensures { (draft : Drafted) → IsDraft draft self → IsDraft (with_fault draft code) result }
    {
        match self {
            Draft::Whole(_) => Draft::Faulty(code),
            Draft::Unkept(_) => Draft::Faulty(code),
            Draft::Faulty(first) => Draft::Faulty(first),
        }
    }

    /// With one more command. A 254th is a fault (`GroupSize`).
    fn and(self, command: Command) -> Draft
        ensures { (draft : Drafted) → IsDraft draft self → IsDraft (draft_with_command draft command) result }
    {
        match self {
            Draft::Whole(commands) => added(commands, command),
            Draft::Unkept(count) => {
                if count >= MOST_OF_GROUP {
                    return Draft::Faulty(Code::GroupSize);
                }
                Draft::Unkept(count + 1)
            }
            Draft::Faulty(code) => Draft::Faulty(code),
        }
    }

    /// With one more line that does not end the group. Only commands, and lines that ask for nothing, may be in it.
    pub fn with(self, line: Line) -> Draft
        ensures { (draft : Drafted) → IsDraft draft self → IsDraft (with_line draft line) result }
    {
        match line {
            Line::Ignored => self,
            Line::Command(command) => self.and(command),
            Line::Refused { code: _, grouped } => self.faulty(grouped),
            Line::Query(_) => self.faulty(Code::BadLine),
            Line::Look(_) => self.faulty(Code::BadLine),
            Line::Near(_) => self.faulty(Code::BadLine),
            Line::Route {
                source: _,
                target: _,
            } => self.faulty(Code::BadLine),
            Line::Table(_table) => self.faulty(Code::BadLine),
            Line::Unkept => self.faulty(Code::BadLine),
            Line::Copy(_) => self.faulty(Code::BadLine),
            Line::Wait => self.faulty(Code::BadLine),
            Line::Until(_) => self.faulty(Code::BadLine),
            Line::State => self.faulty(Code::BadLine),
            Line::Suppose => self.faulty(Code::BadLine),
            Line::Forget => self.faulty(Code::BadLine),
            Line::Quit => self.faulty(Code::BadLine),
            Line::Begin => self.faulty(Code::BadLine),
            Line::End => self.faulty(Code::BadLine),
        }
    }

    /// The group of the lines.
    pub fn end(self) -> Result<Group, NoGroup>
        ensures { (draft : Drafted) → IsDraft draft self → MatchResult result (IsWhole draft) (IsNoGroup draft) }
    {
        match self {
            Draft::Whole(commands) => match Group::new(commands) {
                Ok(group) => Ok(group),
                Err(_) => Err(NoGroup::Fault(Code::GroupSize)),
            },
            Draft::Unkept(_) => Err(NoGroup::NoMemory),
            Draft::Faulty(code) => Err(NoGroup::Fault(code)),
        }
    }
}
