//! Queries and scripts of a network's text.
ghost use Rattle.std.specs.Prelude.{◌≤◌};

use crate::outcomes::{put_outcome, width_of};
use blocks::{Given, Head, NotingWriter};
use dimacs::{Counted, parse_gr, parse_p2p};
use printing::{CountedWriter, Done, Failed};
use querytexts::{
    Reach, answer_by, answer_pairs, batch_text, once_text, reach_text, route_text, table_text,
};
use rehearsals::{joint_text, rehearse_text};
use roadnet::Refusal;
use rows::Searches;
use std::alloc::Global;
use std::io;
use std::thread::Threads;

/// What a call came to, where its readers were made.
type Came = io::Result<Result<Done, Failed>>;

/// The journal pages of a head, and 64 where it names none.
pub(crate) fn pages_of(head: Head<'_>) -> u32
    ensures some { 1 ≤ result }
    ensures few { result ≤ 65536 }
{
    match head.count_of("journal") {
        Some(pages) if 1 <= pages && pages <= 65536 => pages,
        _ => 64,
    }
}

fn once<T: Threads>(
    rt: &T,
    alloc: Global,
    given: Given<'_, '_>,
    writer: &mut NotingWriter,
) -> Came {
    let mut reader = given.reader(alloc, 0)?;
    let source = given.head.number(1).unwrap_or(0);
    let target = given.head.number(2).unwrap_or(0);
    Ok(once_text(
        rt,
        alloc,
        &mut Counted::new(&mut reader),
        source,
        target,
        width_of(given.head),
        &mut CountedWriter::new(writer),
    ))
}

fn route<T: Threads>(
    rt: &T,
    alloc: Global,
    given: Given<'_, '_>,
    writer: &mut NotingWriter,
) -> Came {
    let mut reader = given.reader(alloc, 0)?;
    let source = given.head.number(1).unwrap_or(0);
    let target = given.head.number(2).unwrap_or(0);
    Ok(route_text(
        rt,
        alloc,
        &mut Counted::new(&mut reader),
        source,
        target,
        width_of(given.head),
        &mut CountedWriter::new(writer),
    ))
}

fn batch<T: Threads>(
    rt: &T,
    alloc: Global,
    given: Given<'_, '_>,
    writer: &mut NotingWriter,
) -> Came {
    let mut network = given.reader(alloc, 0)?;
    let mut pairs = given.reader(alloc, 1)?;
    Ok(batch_text(
        rt,
        alloc,
        &mut Counted::new(&mut network),
        &mut Counted::new(&mut pairs),
        width_of(given.head),
        &mut CountedWriter::new(writer),
    ))
}

fn table<T: Threads>(
    rt: &T,
    alloc: Global,
    given: Given<'_, '_>,
    writer: &mut NotingWriter,
) -> Came {
    let mut network = given.reader(alloc, 0)?;
    let mut sources = given.reader(alloc, 1)?;
    let mut targets = given.reader(alloc, 2)?;
    Ok(table_text(
        rt,
        alloc,
        &mut Counted::new(&mut network),
        &mut Counted::new(&mut sources),
        &mut Counted::new(&mut targets),
        width_of(given.head),
        &mut CountedWriter::new(writer),
    ))
}

/// What a head asks to be reached.
fn reach_of(head: Head<'_>) -> Reach {
    let node = head.number(1).unwrap_or(0);
    match head.word(0) {
        "reach" => Reach::From { source: node },
        _ => Reach::To { target: node },
    }
}

fn reach<T: Threads>(
    rt: &T,
    alloc: Global,
    given: Given<'_, '_>,
    writer: &mut NotingWriter,
) -> Came {
    let mut reader = given.reader(alloc, 0)?;
    Ok(reach_text(
        rt,
        alloc,
        &mut Counted::new(&mut reader),
        reach_of(given.head),
        given.head.number_of("within"),
        width_of(given.head),
        &mut CountedWriter::new(writer),
    ))
}

/// The pairs of a text, in the network of another, which is at the version of the head.
fn pairs<T: Threads>(
    rt: &T,
    alloc: Global,
    given: Given<'_, '_>,
    writer: &mut NotingWriter,
) -> Came {
    let Ok(network) = parse_gr(alloc, given.text(0)) else {
        return Ok(Err(Failed::Code(Refusal::Broken)));
    };
    let Ok(pairs) = parse_p2p(alloc, given.text(1), network.nodes()) else {
        return Ok(Err(Failed::Code(Refusal::Broken)));
    };
    let version = given.head.number(1).unwrap_or(0);
    let delta = width_of(given.head);
    let mut writer = CountedWriter::new(writer);
    let Some(rows) = given.head.count_of("rows") else {
        return Ok(answer_pairs(rt, alloc, &network, version, delta, &pairs, &mut writer));
    };
    let searches = Searches::new(delta, rows.clamp(1, 64));
    Ok(answer_by(rt, alloc, &network, version, &searches, &pairs, &mut writer))
}

fn joint<T: Threads>(
    rt: &T,
    alloc: Global,
    given: Given<'_, '_>,
    writer: &mut NotingWriter,
) -> Came {
    let mut reader = given.reader(alloc, 0)?;
    Ok(joint_text(
        rt,
        alloc,
        &mut Counted::new(&mut reader),
        width_of(given.head),
        &mut CountedWriter::new(writer),
    ))
}

fn rehearse<T: Threads>(
    rt: &T,
    alloc: Global,
    given: Given<'_, '_>,
    writer: &mut NotingWriter,
) -> Came {
    let mut network = given.reader(alloc, 0)?;
    let mut script = given.reader(alloc, 1)?;
    Ok(rehearse_text(
        rt,
        alloc,
        &mut Counted::new(&mut network),
        &mut Counted::new(&mut script),
        pages_of(given.head),
        given.head.number_of("room"),
        width_of(given.head),
        &mut CountedWriter::new(writer),
    ))
}

/// By what names the texts of a call are told.
fn names_of(call: &str) -> [&'static str; 3] {
    match call {
        "joint" | "rehearse" => ["network", "script", ""],
        "table" => ["network", "sources", "targets"],
        _ => ["network", "pairs", ""],
    }
}

/// Makes such a call, and adds what comes out.
pub(crate) fn put_answers<T: Threads>(
    rt: &T,
    alloc: Global,
    given: Given<'_, '_>,
    out: &mut Vec<u8>,
) -> io::Result<()> {
    let call = given.head.word(0);
    let mut writer = NotingWriter::new(alloc, given.turn.write);
    let outcome = match call {
        "once" => once(rt, alloc, given, &mut writer)?,
        "route" => route(rt, alloc, given, &mut writer)?,
        "batch" => batch(rt, alloc, given, &mut writer)?,
        "table" => table(rt, alloc, given, &mut writer)?,
        "reach" | "reached" => reach(rt, alloc, given, &mut writer)?,
        "pairs" => pairs(rt, alloc, given, &mut writer)?,
        "joint" => joint(rt, alloc, given, &mut writer)?,
        _ => rehearse(rt, alloc, given, &mut writer)?,
    };
    put_outcome(given, outcome, &names_of(call), &writer, out)
}
