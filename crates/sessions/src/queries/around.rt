//! The answers of a session about nodes near a node, and about tables, in what it supposes.
ghost use Rattle.std.specs.Prelude.{◌≡◌, ◌++◌, All, IfOk, IfErr, OnOk};
ghost use Rattle.roadnet.specs.Net.{IsNode};
ghost use Rattle.rows.specs.Views.{AreRight};
ghost use Rattle.suppositions.specs.Supposing.{IsSuppositionUnanswered};
ghost use Rattle.session_lines.specs.Listings.{sources_of, targets_of};
ghost use Rattle.sessions.specs.Saying.{PutsSo};
ghost use Rattle.sessions.specs.Supposing.{IsNearIn, IsTableIn};
ghost use Rattle.session_lines.specs.Tables.{pairs_of};

use crate::queries::finding::{Heading, tell_near, tell_pairs, tell_untold};
use desk::Near;
use printing::{CountedWriter, Failed};
use roadnet::Refusal;
use rows::Reply;
use session_lines::Table;
use std::alloc::Global;
use std::io::Write;
use std::thread::Threads;
use suppositions::Supposed;

/// Writes what is near a node in the supposed network, and sends it.
#[inline(never)]
pub(crate) fn near_supposed<R: Threads, W: Write>(
    rt: &R,
    alloc: Global,
    supposed: &mut Supposed,
    near: Near,
    out: &mut CountedWriter<'_, W>,
) -> Result<(), Failed>
    ensures told { PutsSo W.contents (IsNearIn supposed.old near) result out.old out.new }
    ensures supposed { supposed.new ≡ supposed.old }
{
    let heading = Heading::Supposed(supposed.version());
    match supposed.near(rt, alloc, near) {
        Ok(found) => tell_near(out, heading, near, &found),
        Err(refusal) => tell_untold(out, heading, refusal),
    }
}

/// The pairs of a table, with their replies in the supposed network.
#[derive(Drop)]
struct ToldTable {
    pairs: Vec<(u64, u64)>,
    replies: Vec<Reply>,
}

/// The replies to all pairs of a table in the supposed network.
fn find_table<R: Threads>(
    rt: &R,
    alloc: Global,
    supposed: &Supposed,
    table: &Table,
) -> Result<ToldTable, Refusal>
    ensures pairs { IfOk result (λ told. told.pairs.items ≡ pairs_of (sources_of table.now) (targets_of table.now)) }
    ensures right { IfOk result (λ told. AreRight supposed.now.network told.pairs.items told.replies.items) }
    ensures nodes { OnOk result (All (IsNode supposed.now.network) (sources_of table.now ++ targets_of table.now)) }
    ensures refused { IfErr result (IsSuppositionUnanswered (All (IsNode supposed.now.network) (sources_of table.now ++ targets_of table.now))) }
{
    let (sources, targets) = table.halves();
    let starts = supposed.has_nodes(sources);
    if !starts {
        return Err(Refusal::NoSuchNode);
    }
    let ends = supposed.has_nodes(targets);
    if !ends {
        return Err(Refusal::NoSuchNode);
    }
    let Ok(pairs) = table.pairs(alloc) else {
        return Err(Refusal::OutOfMemory);
    };
    match supposed.table(rt, alloc, &pairs) {
        Ok(replies) => Ok(ToldTable { pairs, replies }),
        Err(refusal) => Err(refusal),
    }
}

/// Writes the lengths of all pairs of a table in the supposed network, and sends them.
#[inline(never)]
pub(crate) fn table_supposed<R: Threads, W: Write>(
    rt: &R,
    alloc: Global,
    supposed: &mut Supposed,
    table: &Table,
    out: &mut CountedWriter<'_, W>,
) -> Result<(), Failed>
    ensures told { PutsSo W.contents (IsTableIn supposed.old (sources_of table.now) (targets_of table.now)) result out.old out.new }
    ensures supposed { supposed.new ≡ supposed.old }
{
    let heading = Heading::Supposed(supposed.version());
    match find_table(rt, alloc, supposed, table) {
        Ok(told) => tell_pairs(out, heading, &told.pairs, &told.replies),
        Err(refusal) => tell_untold(out, heading, refusal),
    }
}
