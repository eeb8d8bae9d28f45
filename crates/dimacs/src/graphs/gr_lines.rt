//! The lines of the text of a network, taken one after another.
ghost use Rattle.std.specs.Prelude.{◌≡◌, ◌≢◌, IfOk, IfErr, length};
ghost use Rattle.std.specs.Option.{ForNone, ForSome};
ghost use Rattle.dimacs.specs.Fits.{Fits};

use crate::fault::Code;
use crate::graphs::problem::Problem;
use crate::graphs::reading::{item, problem};
use crate::lines::line::{LineKind, kind_of};
use crate::lines::taking::TakeLines;
use roadnet::{Network, RoadArc};
use std::alloc::Global;

/// What the lines so far have given.
#[derive(Drop)]
pub(crate) struct GrLines {
    problem: Option<Problem>,
    arcs: Vec<RoadArc>,
    // no arc comes before the problem line
    ghost none: { ForNone problem (length arcs.items ≡ 0) },
    // a network may have the announced nodes and the arcs so far
    ghost fits: { ForSome problem (λ p. Fits p arcs.items) },
}

impl GrLines {
    ghost use Rattle.std.specs.Prelude.{List, [], ◌∷◌};
    ghost use lib.Chars.{codes};
    ghost use Rattle.dimacs.specs.Lines.{fields};
    ghost use Rattle.dimacs.specs.Format.{gr};
    ghost use Rattle.dimacs.specs.Faults.{Row, code_of};
    ghost use Rattle.dimacs.specs.Taking.{Takes};
    ghost use Rattle.dimacs.specs.Progress.{HasTaken, EndsNetwork};

    pub(crate) fn new(alloc: Global) -> Self
        ensures { HasTaken [] result }
    {
        GrLines {
            problem: None,
            arcs: Vec::new(alloc),
        }
    }

    fn take_problem(&mut self, words: &[u8]) -> Result<(), Code>
        ensures reads_nothing { IfErr result (λ code. code ≢ Code.Read) }
        ensures takes { (earlier : List Row) → HasTaken earlier self.old
            → Takes (code_of gr) HasTaken earlier (codes "p" ∷ fields words.now) self.new result }
    {
        let problem = problem(self.problem.is_some(), words)?;
        self.problem = Some(problem);
        Ok(())
    }

    fn take_item(&mut self, numbers: &[u8]) -> Result<(), Code>
        ensures reads_nothing { IfErr result (λ code. code ≢ Code.Read) }
        ensures takes { (earlier : List Row) → HasTaken earlier self.old
            → Takes (code_of gr) HasTaken earlier (codes "a" ∷ fields numbers.now) self.new result }
    {
        let arc = item(self.problem, self.arcs.len(), numbers)?;
        match self.arcs.push(arc) {
            Ok(()) => Ok(()),
            Err(_) => Err(Code::OutOfMemory),
        }
    }

    /// Ends the text. If the lines make a network, this takes no memory, since there is no landmark.
    pub(crate) fn finish(self, alloc: Global) -> Result<Network, Code>
        ensures reads_nothing { IfErr result (λ code. code ≢ Code.Read) }
        ensures bare { IfOk result (λ network. network.landmarks ≡ []) }
        ensures ends { (lines : List Row) → HasTaken lines self → EndsNetwork lines result }
    {
        let GrLines { problem, arcs } = self;
        let Some(problem) = problem else {
            return Err(Code::NoProblemLine);
        };
        if arcs.len() < problem.items as usize {
            return Err(Code::LineCount);
        }
        match Network::new(alloc, problem.nodes, arcs, &[]) {
            Ok(network) => Ok(network),
            Err(_) => unreachable!(),
        }
    }
}

impl TakeLines for GrLines {
    ghost use Rattle.std.specs.Prelude.{refl};
    ghost use Rattle.dimacs.specs.Format.{gr};
    ghost use Rattle.dimacs.specs.Faults.{code_of};
    ghost use Rattle.dimacs.specs.Progress.{HasTaken};
    ghost use Rattle.dimacs.specs.Overflow.{code_after_fields};

    ghost judge = { code_of gr };

    ghost has_taken = { HasTaken };

    ghost COMMENT = { 99 };

    ghost code_of_overflow = { code_after_fields gr };

    const COMMENT: u8 = b'c';

    fn take_line(&mut self, line: &[u8]) -> Result<(), Code> {
        match kind_of(line, b'a') {
            LineKind::Ignored => Ok(()),
            LineKind::Problem(words) => self.take_problem(words),
            LineKind::Item(numbers) => self.take_item(numbers),
            LineKind::Unknown => Err(Code::BadLine),
        }
    }

    fn pass_comment(&mut self) {}

    fn overflow_decides(&self) {}

    fn same_is_taken(&self) {}

    ghost run_is_no_comment = { refl };

    ghost return_is_no_comment = { refl };

    ghost blank_is_no_comment = { refl };
}
