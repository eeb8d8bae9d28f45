//! Texts that are read: what they tell, spelled plainly, or their fault. Each is read in parts and in memory, and both have to tell the same.
use blocks::Given;
use dimacs::{
    Counted, Fault, Pair, parse_commands, parse_gr, parse_p2p, parse_ss, read_commands, read_gr,
    read_gr_before_run, read_p2p, read_ss,
};
use disk::Pick;
use machine::Event;
use roadnet::{Group, Network};
use scripts::{parse_script, read_script};
use std::alloc::Global;
use std::io;
use std::io::{Read, Write};

/// Adds a network.
fn put_network(network: &Network, out: &mut Vec<u8>) -> io::Result<()> {
    writeln!(out, "p sp {} {}", network.nodes(), network.arcs().len())?;
    for arc in network.arcs() {
        writeln!(out, "a {} {} {}", arc.tail, arc.head, arc.length)?;
    }
    Ok(())
}

/// Adds landmarks.
fn put_landmarks(landmarks: &[u32], out: &mut Vec<u8>) -> io::Result<()> {
    for node in landmarks {
        writeln!(out, "s {node}")?;
    }
    Ok(())
}

/// Adds pairs.
fn put_pairs(pairs: &[Pair], out: &mut Vec<u8>) -> io::Result<()> {
    for pair in pairs {
        writeln!(out, "q {} {}", pair.source, pair.target)?;
    }
    Ok(())
}

/// Adds groups of commands, with how many each of them has.
fn put_groups(groups: &[Group], out: &mut Vec<u8>) -> io::Result<()> {
    for group in groups {
        writeln!(out, "group of {}", group.commands().len())?;
        for command in group.commands() {
            writeln!(out, "{command:?}")?;
        }
    }
    Ok(())
}

/// Adds the events of a script.
fn put_events(events: &[Event<Pick>], out: &mut Vec<u8>) -> io::Result<()> {
    for event in events {
        writeln!(out, "{event:?}")?;
    }
    Ok(())
}

/// Adds what was read, or its fault.
fn put_network_read(read: Result<Network, Fault>, out: &mut Vec<u8>) -> io::Result<()> {
    match read {
        Ok(network) => put_network(&network, out),
        Err(fault) => writeln!(out, "{fault}"),
    }
}

fn put_landmarks_read(read: Result<Vec<u32>, Fault>, out: &mut Vec<u8>) -> io::Result<()> {
    match read {
        Ok(landmarks) => put_landmarks(&landmarks, out),
        Err(fault) => writeln!(out, "{fault}"),
    }
}

fn put_pairs_read(read: Result<Vec<Pair>, Fault>, out: &mut Vec<u8>) -> io::Result<()> {
    match read {
        Ok(pairs) => put_pairs(&pairs, out),
        Err(fault) => writeln!(out, "{fault}"),
    }
}

fn put_groups_read(read: Result<Vec<Group>, Fault>, out: &mut Vec<u8>) -> io::Result<()> {
    match read {
        Ok(groups) => put_groups(&groups, out),
        Err(fault) => writeln!(out, "{fault}"),
    }
}

fn put_events_read(read: Result<Vec<Event<Pick>>, Fault>, out: &mut Vec<u8>) -> io::Result<()> {
    match read {
        Ok(events) => put_events(&events, out),
        Err(fault) => writeln!(out, "{fault}"),
    }
}

/// How many nodes landmarks and pairs are judged by.
const NODES: u32 = 6;

/// Adds what a text in parts tells.
fn put_read(alloc: Global, given: Given<'_, '_>, out: &mut Vec<u8>) -> io::Result<()> {
    let mut reader = given.reader(alloc, 0)?;
    let mut text = Counted::new(&mut reader);
    match given.head.word(0) {
        "gr" => put_network_read(read_gr(alloc, &mut text), out),
        "ss" => put_landmarks_read(read_ss(alloc, &mut text, NODES), out),
        "p2p" => put_pairs_read(read_p2p(alloc, &mut text, NODES), out),
        "commands" => put_groups_read(read_commands(alloc, &mut text), out),
        _ => put_events_read(read_script(alloc, &mut text), out),
    }
}

/// Adds what a text in memory tells.
fn put_parsed(alloc: Global, given: Given<'_, '_>, out: &mut Vec<u8>) -> io::Result<()> {
    let text = given.text(0);
    match given.head.word(0) {
        "gr" => put_network_read(parse_gr(alloc, text), out),
        "ss" => put_landmarks_read(parse_ss(alloc, text, NODES), out),
        "p2p" => put_pairs_read(parse_p2p(alloc, text, NODES), out),
        "commands" => put_groups_read(parse_commands(alloc, text), out),
        _ => put_events_read(parse_script(alloc, text), out),
    }
}

/// Adds what a text tells, and what it tells in memory where that is something else.
pub(crate) fn put_text(alloc: Global, given: Given<'_, '_>, out: &mut Vec<u8>) -> io::Result<()> {
    let mut parsed = Vec::new(alloc);
    put_read(alloc, given, out)?;
    put_parsed(alloc, given, &mut parsed)?;
    if given.turn.read == 0 && parsed.as_slice() != out.as_slice() {
        out.extend_from_slice(b"in memory\n")?;
        out.extend_from_slice(&parsed)?;
    }
    Ok(())
}

/// Adds the network before a line `run`, whether there is that line, and what is left behind it.
pub(crate) fn put_before_run(
    alloc: Global,
    given: Given<'_, '_>,
    out: &mut Vec<u8>,
) -> io::Result<()> {
    let mut reader = given.reader(alloc, 0)?;
    match read_gr_before_run(alloc, &mut Counted::new(&mut reader)) {
        Ok((network, at_run)) => {
            put_network(&network, out)?;
            writeln!(out, "run {at_run}")?;
        }
        Err(fault) => return writeln!(out, "{fault}"),
    }
    reader.read_to_end(out)?;
    Ok(())
}
