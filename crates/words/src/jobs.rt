//! The jobs that words ask for.
use crate::pipes::PipePair;

/// The texts that give pairs of nodes. A name of a file is as it was written.
#[derive(Clone, Copy, Debug)]
pub enum PairTexts<'w> {
    /// One that lists them.
    Listed { pairs: &'w str },
    /// One that lists sources, and one that lists targets: each source with each target.
    Table { sources: &'w str, targets: &'w str },
}

/// The arcs that are looked at, by their numbers.
#[derive(Clone, Copy, Debug)]
pub enum ArcNumbers {
    /// The arc of this number.
    Arc { number: u64 },
    /// All arcs from `tail` to `head`, closed ones too.
    Between { tail: u64, head: u64 },
}

/// What the program is asked to do. A name of a file is as it was written.
#[derive(Debug, Drop)]
pub enum Job<'w> {
    /// The joint form on standard input.
    Joint {
        delta: Option<u32>,
    },
    /// One distance in the network of a file.
    Once {
        network: &'w str,
        source: u64,
        target: u64,
        delta: Option<u32>,
    },
    /// The arcs of one shortest walk in the network of a file.
    Route {
        network: &'w str,
        source: u64,
        target: u64,
        delta: Option<u32>,
    },
    /// Pairs, in the network of a file.
    Batch {
        network: &'w str,
        pairs: PairTexts<'w>,
        delta: Option<u32>,
    },
    /// The nodes that walks from a node reach, in the network of a file.
    Reach {
        network: &'w str,
        source: u64,
        /// The greatest length that is told, if there is one.
        within: Option<u64>,
        delta: Option<u32>,
    },
    /// The nodes from which walks reach a node, in the network of a file.
    Reached {
        network: &'w str,
        target: u64,
        /// The greatest length that is told, if there is one.
        within: Option<u64>,
        delta: Option<u32>,
    },
    /// The script of one file, on a store in memory for the network of another.
    Rehearse {
        network: &'w str,
        script: &'w str,
        journal_pages: u32,
        room: Option<u64>,
        delta: Option<u32>,
    },
    /// A new store, for the network of one file with the landmarks of another.
    Create {
        store: &'w str,
        network: &'w str,
        landmarks: &'w str,
        journal_pages: u32,
        room: Option<u64>,
    },
    /// The commands of a file, on a store.
    Apply {
        store: &'w str,
        commands: &'w str,
        delta: Option<u32>,
    },
    /// Pairs, in the network of a store.
    Ask {
        store: &'w str,
        pairs: PairTexts<'w>,
        /// Whether the arcs of a shortest walk are told for each pair that is listed, and not its length.
        routes: bool,
        delta: Option<u32>,
    },
    /// How a store stands.
    Check {
        store: &'w str,
    },
    /// A session over a store, on standard input and output, and one with each client that comes by a pair of pipes.
    Serve {
        store: &'w str,
        /// First those at which clients may change the network, and then those at which they ask alone.
        pipes: Vec<PipePair<'w>>,
        /// The folder in which copies are made, if they are.
        copies: Option<&'w str>,
        delta: Option<u32>,
        workers: u32,
        /// For how many seconds a version is waited for.
        patience: u32,
    },
    /// A new store, of the store of another file.
    Migrate {
        old: &'w str,
        new: &'w str,
        room: Option<u64>,
    },
    /// A new store, of the store of another file brought from one map to another.
    Upgrade {
        store: &'w str,
        old: &'w str,
        network: &'w str,
        new: &'w str,
        room: Option<u64>,
    },
    /// A copy of a store in another file, with another room or journal if one is given.
    Copy {
        store: &'w str,
        file: &'w str,
        room: Option<u64>,
        journal_pages: Option<u32>,
    },
    /// A look at the arcs of a store's network.
    Show {
        store: &'w str,
        look: ArcNumbers,
    },
    /// The network of a store, written out as texts in a folder.
    Export {
        store: &'w str,
        folder: &'w str,
    },
}
