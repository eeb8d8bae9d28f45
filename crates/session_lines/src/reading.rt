//! The lines that a client sends.
ghost use Rattle.std.specs.Prelude.{◌≡◌, IfErr, IfSome};
ghost use Rattle.dimacs.specs.Counts.{failed_calls, reader_of, IsSameReader, CountsCall};
ghost use Rattle.session_lines.specs.Reads.{ReadsSessionLine};

use crate::lines::Line;
use crate::so_far::LineSoFar;
use dimacs::{Code, Counted};
use std::alloc::Global;
use std::io::BufRead;
use std::sync::Wait;

/// What to do with a last line that no line feed ends.
#[derive(Clone, Copy, Debug, PartialEq, Eq)]
pub enum LastLine {
    /// It is carried out as any other: whoever wrote the text wrote all of it, for example to standard input.
    Taken,
    /// It is not carried out: a client that sends through a pipe may be cut off in it, and then `set 1 900` reads as `set 1 9`.
    Dropped,
}

/// What the next line asks for; nothing if there is no further line. The only error is a failed call of the reader. It only takes memory for the numbers of
/// a table.
pub fn next_line<R: Wait, I: BufRead>(
    rt: &R,
    alloc: Global,
    reader: &mut Counted<'_, I>,
    last_line: LastLine,
) -> Result<Option<Line>, Code>
    ensures line { IfSome (I.remaining (reader_of reader.old)) (λ text. ReadsSessionLine last_line text (I.remaining (reader_of reader.new)) result) }
    ensures refused { IfErr result (λ code. code ≡ Code.Read) }
    ensures counts { CountsCall (failed_calls reader.old) (failed_calls reader.new) result }
    ensures same { IsSameReader reader.old reader.new }
{
    let mut line = LineSoFar::new();
    let mut is_empty = true;
    for _ in rt.forever() {
        match reader.next_byte()? {
            None => {
                if is_empty || last_line == LastLine::Dropped {
                    return Ok(None);
                }
                return Ok(Some(line.line()));
            }
            Some(b'\n') => return Ok(Some(line.line())),
            Some(byte) => {
                line = line.with(alloc, byte);
                is_empty = false;
            }
        }
    }
    unreachable!()
}
