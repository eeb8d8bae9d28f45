//! One query of a text.
ghost use Rattle.std.specs.Prelude.{◌≡◌, OnOk, IfOk, IfErr, IfSome, IsSome};
ghost use Rattle.std.specs.Option.{ForSome};
ghost use Rattle.rows.specs.Kept.{IsWidth};
ghost use Rattle.rows.specs.Replies.{query_refusal_of};
ghost use Rattle.dimacs.specs.Calling.{KeepsText};
ghost use Rattle.printing.specs.Counting.{writer_of};
ghost use Rattle.printing.specs.Failing.{CountsReads, LeavesUnwritten};
ghost use Rattle.printing.specs.Widths.{told_width};
ghost use Rattle.printing.specs.Writers.{KeepsWriter};
ghost use Rattle.querytexts.specs.Once.{Answers, AnswersOne, IsAnsweredOnce, IsOfOnce, IsRefusedOnce};

use dimacs::{Text, read_gr};
use printing::{CountedWriter, Done, Failed, of_text, put_lines};
use roadnet::{Network, Refusal};
use rows::{Query, Searches};
use std::alloc::Global;
use std::io::Write;
use std::thread::Threads;

const NETWORK: u8 = 0;

/// The most rows that are kept: one query keeps none.
const ROWS: u32 = 1;

/// Writes the lines of a right reply to `dist s t`, at version 0, and sends them; or nothing, if there is no memory for the reply.
fn answer_one<T: Threads, W: Write>(
    rt: &T,
    alloc: Global,
    network: &Network,
    delta: Option<u32>,
    s: u64,
    t: u64,
    out: &mut CountedWriter<'_, W>,
) -> Result<Done, Failed>
    requires { ForSome delta IsWidth }
    ensures answered { OnOk result (AnswersOne network.now (Query.Dist s t) (W.contents (writer_of out.old)) (W.contents (writer_of out.new))) }
    ensures answers { Answers delta result out.old out.new }
    // A refused query takes no memory.
    ensures memory { IsSome (query_refusal_of network.now (Query.Dist s t)) → IfErr result (λ failed. failed ≡ Failed.Code Refusal.Write) }
{
    let query = Query::Dist {
        source: s,
        target: t,
    };
    let searches = Searches::new(delta, ROWS);
    let reply = match searches.distance(rt, alloc, network, s, t) {
        Ok(reply) => reply,
        Err(_) => return Err(Failed::Code(Refusal::OutOfMemory)),
    };
    put_lines(out, 0, &query, reply)?;
    out.flush()?;
    Ok(Done::by(&searches))
}

/// Writes the answer to `dist s t` in the network of a `.gr` text, at version 0, and nothing else. The text is read completely before anything is written.
///
/// `delta` is the width of a search's buckets, 1 to 2147483647. Every width gives the same answer. Without one it is the network's default. The search ends
/// at the target, and is made by a crew of the runtime's threads. If there is no memory for the reply, the call is refused with 11 and nothing is written.
/// A failed read is fault 10 of the line being read, and a failed write is 12. Both are reported only if the count of failed calls of the text or of the
/// writer rose. After an `Err` the text and the writer are not used again.
pub fn once_text<T: Threads, S: Text, W: Write>(
    rt: &T,
    alloc: Global,
    gr: &mut S,
    s: u64,
    t: u64,
    delta: Option<u32>,
    out: &mut CountedWriter<'_, W>,
) -> Result<Done, Failed>
    requires { ForSome delta IsWidth }
    ensures answered { OnOk result (IfSome (S.bytes gr.old)
        (λ text. IsAnsweredOnce text (Query.Dist s t) (W.contents (writer_of out.old)) (W.contents (writer_of out.new)))) }
    ensures width { IfOk result (λ done. told_width done ≡ delta) }
    ensures refused { IfErr result (λ failed. IfSome (S.bytes gr.old) (λ text. IsRefusedOnce text (Query.Dist s t) (S.source gr.new) failed)) }
    ensures codes { IfErr result IsOfOnce }
    ensures unwritten { IfErr result (LeavesUnwritten (writer_of out.old) (writer_of out.new)) }
    ensures reads { KeepsText CountsReads S.Text result gr.old gr.new }
    ensures writes { KeepsWriter result out.old out.new }
{
    let network = of_text(NETWORK, read_gr(alloc, gr))?;
    answer_one(rt, alloc, &network, delta, s, t, out)
}
