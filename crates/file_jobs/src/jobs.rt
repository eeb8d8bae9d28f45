//! The jobs of the program on texts, answered on standard output. Each opens its texts, and then the output, for one call on texts.
ghost use Rattle.std.specs.Prelude.{◌≡◌, IfOk};
ghost use Rattle.std.specs.Option.{ForSome};
ghost use Rattle.rows.specs.Kept.{IsWidth};
ghost use Rattle.words.specs.Words.{IsJournal};
ghost use Rattle.printing.specs.Widths.{told_width};

use crate::files::{
    beside_output, open_table, open_text, open_texts, standard_input, standard_output,
};
use dimacs::Counted;
use printing::{CountedWriter, Done, Failed};
use progress::Progress;
use querytexts::{Reach, batch_text, once_text, reach_text, route_text, table_text};
use rehearsals::{joint_text, rehearse_text};
use std::rt::Files;
use std::thread::Threads;
use std::time::Clock;
use words::PairTexts;

/// The joint form on standard input.
pub fn joint<R: AllocGlobal + Clock + Input + Print + Threads>(
    rt: &R,
    delta: Option<u32>,
) -> Result<Done, Failed>
    requires { ForSome delta IsWidth }
    ensures { IfOk result (λ done. told_width done ≡ delta) }
{
    let mut reader = standard_input(rt)?;
    let mut writer = standard_output(rt)?;
    joint_text(
        rt,
        rt.alloc(),
        &mut Counted::new(&mut reader),
        delta,
        &mut CountedWriter::new(&mut writer),
    )
}

/// One distance in the network of a file.
pub fn once<R: AllocGlobal + Clock + Eprint + Files + Input + Print + Threads>(
    rt: &R,
    progress: &Progress<'_, R>,
    network: &str,
    source: u64,
    target: u64,
    delta: Option<u32>,
) -> Result<Done, Failed>
    requires { ForSome delta IsWidth }
    ensures { IfOk result (λ done. told_width done ≡ delta) }
{
    let gr = open_text(rt, progress, 0, network)?;
    let (mut gr, mut writer) = beside_output(gr, rt, progress)?;
    once_text(
        rt,
        rt.alloc(),
        &mut Counted::new(&mut gr),
        source,
        target,
        delta,
        &mut CountedWriter::new(&mut writer),
    )
}

/// The arcs of a shortest walk in the network of a file.
pub fn route<R: AllocGlobal + Clock + Eprint + Files + Input + Print + Threads>(
    rt: &R,
    progress: &Progress<'_, R>,
    network: &str,
    source: u64,
    target: u64,
    delta: Option<u32>,
) -> Result<Done, Failed>
    requires { ForSome delta IsWidth }
    ensures { IfOk result (λ done. told_width done ≡ delta) }
{
    let gr = open_text(rt, progress, 0, network)?;
    let (mut gr, mut writer) = beside_output(gr, rt, progress)?;
    route_text(
        rt,
        rt.alloc(),
        &mut Counted::new(&mut gr),
        source,
        target,
        delta,
        &mut CountedWriter::new(&mut writer),
    )
}

/// The nodes that walks from a node reach, or from which they reach it, in the network of a file.
pub fn find_reached<R: AllocGlobal + Clock + Eprint + Files + Input + Print + Threads>(
    rt: &R,
    progress: &Progress<'_, R>,
    network: &str,
    reach: Reach,
    within: Option<u64>,
    delta: Option<u32>,
) -> Result<Done, Failed>
    requires { ForSome delta IsWidth }
    ensures { IfOk result (λ done. told_width done ≡ delta) }
{
    let gr = open_text(rt, progress, 0, network)?;
    let (mut gr, mut writer) = beside_output(gr, rt, progress)?;
    reach_text(
        rt,
        rt.alloc(),
        &mut Counted::new(&mut gr),
        reach,
        within,
        delta,
        &mut CountedWriter::new(&mut writer),
    )
}

/// The pairs of a file in the network of another.
fn listed_pairs<R: AllocGlobal + Clock + Eprint + Files + Input + Print + Threads>(
    rt: &R,
    progress: &Progress<'_, R>,
    network: &str,
    pairs: &str,
    delta: Option<u32>,
) -> Result<Done, Failed>
    requires { ForSome delta IsWidth }
    ensures { IfOk result (λ done. told_width done ≡ delta) }
{
    let texts = open_texts(rt, progress, network, pairs)?;
    let ((mut gr, mut p2p), mut writer) = beside_output(texts, rt, progress)?;
    batch_text(
        rt,
        rt.alloc(),
        &mut Counted::new(&mut gr),
        &mut Counted::new(&mut p2p),
        delta,
        &mut CountedWriter::new(&mut writer),
    )
}

/// The pairs between the nodes of two files in the network of another.
fn table_of_pairs<R: AllocGlobal + Clock + Eprint + Files + Input + Print + Threads>(
    rt: &R,
    progress: &Progress<'_, R>,
    network: &str,
    sources: &str,
    targets: &str,
    delta: Option<u32>,
) -> Result<Done, Failed>
    requires { ForSome delta IsWidth }
    ensures { IfOk result (λ done. told_width done ≡ delta) }
{
    let texts = open_table(rt, progress, network, sources, targets)?;
    let ((mut gr, mut from, mut to), mut writer) = beside_output(texts, rt, progress)?;
    table_text(
        rt,
        rt.alloc(),
        &mut Counted::new(&mut gr),
        &mut Counted::new(&mut from),
        &mut Counted::new(&mut to),
        delta,
        &mut CountedWriter::new(&mut writer),
    )
}

/// Pairs in the network of a file.
pub fn batch<R: AllocGlobal + Clock + Eprint + Files + Input + Print + Threads>(
    rt: &R,
    progress: &Progress<'_, R>,
    network: &str,
    pairs: PairTexts<'_>,
    delta: Option<u32>,
) -> Result<Done, Failed>
    requires { ForSome delta IsWidth }
    ensures { IfOk result (λ done. told_width done ≡ delta) }
{
    match pairs {
        PairTexts::Listed { pairs } => listed_pairs(rt, progress, network, pairs, delta),
        PairTexts::Table { sources, targets } => {
            table_of_pairs(rt, progress, network, sources, targets, delta)
        }
    }
}

/// The script of a file, on a store in memory for the network of another, with room for so many arcs.
pub fn rehearse<R: AllocGlobal + Clock + Eprint + Files + Input + Print + Threads>(
    rt: &R,
    progress: &Progress<'_, R>,
    network: &str,
    script: &str,
    journal_pages: u32,
    room: Option<u64>,
    delta: Option<u32>,
) -> Result<Done, Failed>
    requires journal { IsJournal journal_pages }
    requires width { ForSome delta IsWidth }
    ensures width { IfOk result (λ done. told_width done ≡ delta) }
{
    let texts = open_texts(rt, progress, network, script)?;
    let ((mut gr, mut script), mut writer) = beside_output(texts, rt, progress)?;
    rehearse_text(
        rt,
        rt.alloc(),
        &mut Counted::new(&mut gr),
        &mut Counted::new(&mut script),
        journal_pages,
        room,
        delta,
        &mut CountedWriter::new(&mut writer),
    )
}
