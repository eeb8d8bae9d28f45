//! The texts in which a network is written out, as bytes.
ghost use Rattle.std.specs.Prelude.{◌<◌, ◌^◌, [], not, map, OnOk, if◌then◌else◌};
ghost use Rattle.roadnet.specs.Net.{IsNetwork};
ghost use Rattle.printing.specs.Counting.{writer_of};
ghost use Rattle.printing.specs.Writers.{Puts};
ghost use Rattle.printing.specs.Chosen.{closed_arcs};
ghost use Rattle.printing.specs.Exports.{text_line_of, text_of, heading, counts_row, count_row, arc_row, landmark_row, closing_row, network_rows, landmark_rows, closing_rows, exported_rows, IsOrigin, SaysExported, WritesText, ClosingRestores};

use crate::failed::Failed;
use crate::looks::put_part;
use crate::printed::put_numbered;
use crate::writer::CountedWriter;
use roadnet::{Network, RoadArc};
use std::io::Write;

/// The texts in which a network is written out.
#[derive(Clone, Copy, Debug, PartialEq, Eq)]
pub enum Exported {
    /// A `.gr` text: all arcs, closed ones too, in the order of their numbers.
    Network,
    /// A `.ss` text: the landmarks.
    Landmarks,
    /// A text of commands that closes the closed arcs, one on each line.
    Closings,
}

/// The store of a text, for the text's first line, which also has the network's room.
#[derive(Clone, Copy, Debug, PartialEq, Eq)]
pub struct Origin {
    /// The store's version.
    pub version: u64,
    /// The pages of its journal.
    pub journal_pages: u32,
}

/// The line about the store, after the mark of a comment: `c roadmark version V room R journal J`.
fn put_heading<W: Write>(
    out: &mut CountedWriter<'_, W>,
    mark: &[u8],
    room: u32,
    version: u64,
    journal_pages: u32,
) -> Result<(), Failed>
    ensures puts { Puts W.contents (text_line_of (heading mark.now room (record { version = version; journal_pages = journal_pages }))) result out.old out.new }
    ensures version { version < 2 ^ 64 }
    ensures pages { journal_pages < 2 ^ 32 }
{
    out.write_all(mark)?;
    put_part(out, b" roadmark version ", version)?;
    put_part(out, b" room ", u64::from(room))?;
    put_numbered(out, b" journal ", u64::from(journal_pages))
}

/// `p sp N M`
fn put_counts<W: Write>(out: &mut CountedWriter<'_, W>, nodes: u32, arcs: u64) -> Result<(), Failed>
    ensures { Puts W.contents (text_line_of (counts_row nodes arcs)) result out.old out.new }
{
    put_part(out, b"p sp ", u64::from(nodes))?;
    put_numbered(out, b" ", arcs)
}

/// `p aux sp ss N`
fn put_count<W: Write>(out: &mut CountedWriter<'_, W>, landmarks: u64) -> Result<(), Failed>
    ensures { Puts W.contents (text_line_of (count_row landmarks)) result out.old out.new }
{
    put_numbered(out, b"p aux sp ss ", landmarks)
}

/// `a T H W`
fn put_arc_row<W: Write>(out: &mut CountedWriter<'_, W>, arc: &RoadArc) -> Result<(), Failed>
    ensures { Puts W.contents (text_line_of (arc_row arc.now)) result out.old out.new }
{
    put_part(out, b"a ", u64::from(arc.tail))?;
    put_part(out, b" ", u64::from(arc.head))?;
    put_numbered(out, b" ", u64::from(arc.length))
}

/// A line for each arc.
fn put_arc_rows<W: Write>(out: &mut CountedWriter<'_, W>, arcs: &[RoadArc]) -> Result<(), Failed>
    ensures { Puts W.contents (text_of (map arc_row arcs.now)) result out.old out.new }
{
    for arc in arcs {
        put_arc_row(out, arc)?;
    }
    Ok(())
}

/// `s X` for each landmark.
pub(crate) fn put_landmark_rows<W: Write>(
    out: &mut CountedWriter<'_, W>,
    landmarks: &[u32],
) -> Result<(), Failed>
    ensures { Puts W.contents (text_of (map landmark_row landmarks.now)) result out.old out.new }
{
    for node in landmarks {
        put_numbered(out, b"s ", u64::from(*node))?;
    }
    Ok(())
}

/// `close K`, if the arc K is closed.
pub(crate) fn put_closing<W: Write>(
    out: &mut CountedWriter<'_, W>,
    number: u64,
    arc: &RoadArc,
) -> Result<(), Failed>
    ensures { Puts W.contents (if not arc.now.opened then text_line_of (closing_row number) else []) result out.old out.new }
{
    if arc.opened {
        return Ok(());
    }
    put_numbered(out, b"close ", number)
}

/// A line for each closed arc.
fn put_closing_rows<W: Write>(
    out: &mut CountedWriter<'_, W>,
    arcs: &[RoadArc],
) -> Result<(), Failed>
    ensures { Puts W.contents (text_of (map closing_row (closed_arcs arcs.now))) result out.old out.new }
{
    for (index, arc) in arcs.iter().enumerate() {
        put_closing(out, index as u64 + 1, arc)?;
    }
    Ok(())
}

/// The `.gr` text of a network.
fn put_network<W: Write>(
    out: &mut CountedWriter<'_, W>,
    network: &Network,
    origin: &Origin,
) -> Result<(), Failed>
    ensures puts { Puts W.contents (text_of (network_rows network.now origin.now)) result out.old out.new }
    ensures network { IsNetwork network.now }
    ensures origin { IsOrigin origin.now }
{
    put_heading(
        out,
        b"c",
        network.room(),
        origin.version,
        origin.journal_pages,
    )?;
    put_counts(out, network.nodes(), network.arcs().len() as u64)?;
    put_arc_rows(out, network.arcs())
}

/// The `.ss` text of its landmarks.
fn put_landmarks<W: Write>(
    out: &mut CountedWriter<'_, W>,
    network: &Network,
    origin: &Origin,
) -> Result<(), Failed>
    ensures puts { Puts W.contents (text_of (landmark_rows network.now origin.now)) result out.old out.new }
    ensures network { IsNetwork network.now }
    ensures origin { IsOrigin origin.now }
{
    put_heading(
        out,
        b"c",
        network.room(),
        origin.version,
        origin.journal_pages,
    )?;
    put_count(out, network.landmarks().len() as u64)?;
    put_landmark_rows(out, network.landmarks())
}

/// The commands that close its closed arcs.
fn put_closings<W: Write>(
    out: &mut CountedWriter<'_, W>,
    network: &Network,
    origin: &Origin,
) -> Result<(), Failed>
    ensures puts { Puts W.contents (text_of (closing_rows network.now origin.now)) result out.old out.new }
    ensures network { IsNetwork network.now }
    ensures origin { IsOrigin origin.now }
{
    put_heading(
        out,
        b"#",
        network.room(),
        origin.version,
        origin.journal_pages,
    )?;
    put_closing_rows(out, network.arcs())
}

/// Writes one of the texts of a network, line by line. It takes no memory. The first line of each text describes the store, `c roadmark version V room R
/// journal J`, or the same after `#` in the text of commands. It is a comment.
///
/// Read by its grammar, the `.gr` text gives the network with each arc open, the `.ss` text gives its landmarks, and the text of commands closes exactly
/// its closed arcs, each by a group of its own. A failed write is refused with 12; then an unknown part was written.
pub fn put_exported<W: Write>(
    out: &mut CountedWriter<'_, W>,
    text: Exported,
    network: &Network,
    origin: &Origin,
) -> Result<(), Failed>
    ensures puts { Puts W.contents (text_of (exported_rows text network.now origin.now)) result out.old out.new }
    ensures read { OnOk result (WritesText (SaysExported text network.now) (W.contents (writer_of out.old)) (W.contents (writer_of out.new))) }
{
    match text {
        Exported::Network => put_network(out, network, origin),
        Exported::Landmarks => put_landmarks(out, network, origin),
        Exported::Closings => put_closings(out, network, origin),
    }
}

/// What holds of a network that is written as texts: with its arcs opened, and its closed ones closed again, it is as it was.
pub fn laws_of_exports()
    ensures restored { ClosingRestores }
{}
