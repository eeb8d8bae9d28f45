//! A session with a client whose failed calls are counted.
ghost use Rattle.sessions.specs.Clients.{IsServed};

use crate::clients::serving::{Terms, serve};
use crate::session::sessions::Session;
use desk::{Handle, Naming, Served};
use dimacs::Counted;
use printing::{CountedWriter, Failed};
use session_lines::Copies;
use std::alloc::Global;
use std::io::{BufRead, Write};

/// What a finished session leaves.
#[derive(Drop)]
pub(crate) struct Finished<N: Naming> {
    /// Its outcome.
    pub(crate) outcome: Result<(), Failed>,
    /// What it has of its desk.
    pub(crate) session: Session<N>,
    /// How many calls of the reader failed, 0 or 1.
    pub(crate) failed_reads: u64,
    /// How many calls of the writer failed.
    pub(crate) failed_writes: u64,
}

/// A session with one client, as `serve`, with the failed calls of its reader and writer counted.
#[inline(never)]
pub(crate) fn serve_client<S: Served, C: Copies, I: BufRead, W: Write>(
    rt: &S::Runtime,
    alloc: Global,
    desk: &Handle<S>,
    terms: Terms<'_, C>,
    reader: &mut I,
    writer: &mut W,
) -> Finished<S::Naming>
    ensures { IsServed C.copying terms.entry S.Naming.origin I.remaining W.contents reader.old reader.new writer.old writer.new result }
{
    let mut reader = Counted::new(reader);
    let mut writer = CountedWriter::new(writer);
    desk.client_came();
    let (outcome, session) = serve(rt, alloc, desk, terms, &mut reader, &mut writer);
    desk.client_went();
    Finished {
        outcome,
        session,
        failed_reads: reader.failed_calls(),
        failed_writes: writer.failed_writes(),
    }
}
