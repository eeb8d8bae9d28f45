//! The texts of networks.
ghost use Rattle.std.specs.Prelude.{◌≡◌, ◌≢◌, List, [], length, IfOk, IfErr, IfSome};
ghost use Rattle.dimacs.specs.Calling.{KeepsText};
ghost use Rattle.dimacs.specs.Content.{gr_text};
ghost use Rattle.dimacs.specs.Counts.{CountsFailures, IsSameReader, failed_calls, reader_of};
ghost use Rattle.dimacs.specs.Faults.{Row};
ghost use Rattle.dimacs.specs.Gr.{ReadsBeforeRun};
ghost use Rattle.dimacs.specs.Progress.{HasTaken};
ghost use Rattle.dimacs.specs.Texts.{InMemory, EndsText, ReadsText};

use crate::fault::{Code, Fault};
use crate::graphs::gr_lines::GrLines;
use crate::lines::counted::Counted;
use crate::lines::feed::{Ended, read_lines};
use crate::lines::text::Text;
use roadnet::Network;
use std::alloc::Global;
use std::io::BufRead;

/// The network of the lines that were taken, or the fault at their end.
fn network_at_end(alloc: Global, ended: Ended<GrLines>) -> Result<Network, Fault>
    ensures reads_nothing { IfErr result (λ fault. fault.code ≢ Code.Read) }
    ensures bare { IfOk result (λ network. network.landmarks ≡ []) }
    ensures ends { (lines : List Row) → HasTaken lines ended.taker → ended.lines ≡ length lines → EndsText gr_text lines result }
{
    let Ended {
        taker,
        lines,
        at_run: _,
    } = ended;
    match taker.finish(alloc) {
        Ok(network) => Ok(network),
        Err(code) => Err(Fault { line: lines, code }),
    }
}

/// The network of a `.gr` text, with all arcs open and no landmark, or the text's first fault. The count of failed calls distinguishes a failed read from a
/// fault of the text. After an `Err` the text is not used again.
///
/// `examples/six.gr` gives six nodes and eight arcs. Without its last line it has the fault `LineCount` in line 9. The empty text has `NoProblemLine` in
/// line 0.
pub fn read_gr<S: Text>(alloc: Global, text: &mut S) -> Result<Network, Fault>
    ensures read { IfSome (S.bytes text.old) (λ bytes. ReadsText gr_text bytes (S.source text.new) result) }
    ensures bare { IfOk result (λ network. network.landmarks ≡ []) }
    ensures counts { KeepsText CountsFailures S.Text result text.old text.new }
{
    let ended = text.give_lines(alloc, GrLines::new(alloc))?;
    network_at_end(alloc, ended)
}

/// The network of a `.gr` text in memory, as by `read_gr`.
pub fn parse_gr(alloc: Global, bytes: &[u8]) -> Result<Network, Fault>
    ensures { ReadsText gr_text bytes.now InMemory result }
{
    let mut text = bytes;
    read_gr(alloc, &mut text)
}

/// The network of the lines before the first line `run`, and whether there is such a line. If there is, the reader still has the bytes after it. If there
/// is none, the network is that of the whole text. After an `Err` the reader is not used again.
pub fn read_gr_before_run<R: BufRead>(
    alloc: Global,
    counted: &mut Counted<'_, R>,
) -> Result<(Network, bool), Fault>
    ensures read { IfSome (R.remaining (reader_of counted.old))
        (λ text. ReadsBeforeRun text (R.remaining (reader_of counted.new)) result) }
    ensures bare { IfOk result (λ found. found.0.landmarks ≡ []) }
    ensures counts { CountsFailures (failed_calls counted.old) (failed_calls counted.new) result }
    ensures same { IsSameReader counted.old counted.new }
{
    let ended = read_lines(alloc, counted, true, GrLines::new(alloc))?;
    let at_run = ended.at_run;
    let network = network_at_end(alloc, ended)?;
    Ok((network, at_run))
}
