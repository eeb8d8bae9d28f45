//! The nodes near a node, and the answers to pairs, as bytes.
ghost use Rattle.std.specs.Prelude.{◌≡◌, length};
ghost use Rattle.std.specs.List.{flat_map};
ghost use Rattle.printing.specs.Writers.{Puts};
ghost use Rattle.printing.specs.Nodes.{count_line, reach_line_from, line_to, reach_lines, reached_lines, nearest_lines, pair_lines};

use crate::failed::Failed;
use crate::printed::{put_answer, put_number, put_numbered};
use crate::writer::CountedWriter;
use deltastep::NodeDistance;
use rows::{Query, Reply};
use std::io::Write;

/// A word, a node, and how many lines follow.
fn put_counted<W: Write>(
    out: &mut CountedWriter<'_, W>,
    word: &[u8],
    node: u64,
    count: usize,
) -> Result<(), Failed>
    ensures { Puts W.contents (count_line word.now node count) result out.old out.new }
{
    out.write_all(word)?;
    put_number(out, node)?;
    put_numbered(out, b" ", count as u64)
}

/// `d S T L` for each of these nodes as a target.
fn put_from<W: Write>(
    out: &mut CountedWriter<'_, W>,
    source: u64,
    told: &[NodeDistance],
) -> Result<(), Failed>
    ensures { Puts W.contents (flat_map (reach_line_from source) told.now) result out.old out.new }
{
    for near in told {
        let target = u64::from(near.node);
        put_answer(
            out,
            &Query::Dist { source, target },
            Reply::Length(near.distance),
        )?;
    }
    Ok(())
}

/// `d S T L` for each of these nodes as a source.
fn put_to<W: Write>(
    out: &mut CountedWriter<'_, W>,
    target: u64,
    told: &[NodeDistance],
) -> Result<(), Failed>
    ensures { Puts W.contents (flat_map (line_to target) told.now) result out.old out.new }
{
    for near in told {
        let source = u64::from(near.node);
        put_answer(
            out,
            &Query::Dist { source, target },
            Reply::Length(near.distance),
        )?;
    }
    Ok(())
}

/// `reach S C`, and a line `d S T L` for each of C nodes that are reached from S, in their order.
pub fn put_reach<W: Write>(
    out: &mut CountedWriter<'_, W>,
    source: u64,
    told: &[NodeDistance],
) -> Result<(), Failed>
    ensures { Puts W.contents (reach_lines source told.now) result out.old out.new }
{
    put_counted(out, b"reach ", source, told.len())?;
    put_from(out, source, told)
}

/// `reached T C`, and a line `d S T L` for each of C nodes from which T is reached, in their order.
pub fn put_reached<W: Write>(
    out: &mut CountedWriter<'_, W>,
    target: u64,
    told: &[NodeDistance],
) -> Result<(), Failed>
    ensures { Puts W.contents (reached_lines target told.now) result out.old out.new }
{
    put_counted(out, b"reached ", target, told.len())?;
    put_to(out, target, told)
}

/// `nearest S C`, and a line `d S X L` for each of C landmarks that are near S, in their order.
pub fn put_nearest<W: Write>(
    out: &mut CountedWriter<'_, W>,
    source: u64,
    told: &[NodeDistance],
) -> Result<(), Failed>
    ensures { Puts W.contents (nearest_lines source told.now) result out.old out.new }
{
    put_counted(out, b"nearest ", source, told.len())?;
    put_from(out, source, told)
}

/// The answers to `Dist` for pairs of a source and a target, one line each, in their order.
pub fn put_pairs<W: Write>(
    out: &mut CountedWriter<'_, W>,
    pairs: &[(u64, u64)],
    replies: &[Reply],
) -> Result<(), Failed>
    requires { length replies.now ≡ length pairs.now }
    ensures { Puts W.contents (pair_lines pairs.now replies.now) result out.old out.new }
{
    for (index, pair) in pairs.iter().enumerate() {
        let (source, target) = *pair;
        put_answer(out, &Query::Dist { source, target }, replies[index])?;
    }
    Ok(())
}
