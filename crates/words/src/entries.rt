//! What each word of the program takes, and its help.
use crate::helps::{
    ABOUT, ABOUT_APPLY, ABOUT_ASK, ABOUT_BATCH, ABOUT_CHECK, ABOUT_COPY, ABOUT_CREATE,
    ABOUT_EXPORT, ABOUT_MIGRATE, ABOUT_ONCE, ABOUT_REACH, ABOUT_REACHED, ABOUT_REHEARSE,
    ABOUT_ROUTE, ABOUT_SERVE, ABOUT_SHOW, ABOUT_UPGRADE, AFTER_SERVE, COPIED_JOURNAL, COPIED_ROOM,
    DELTA_HELP, GR_HELP, JOURNAL_HELP, NEW_HELP, NUMBER_HELP, ROOM_HELP, STORE_HELP, UNUSED_DELTA,
};
use crate::names::{
    APPLY, ASK, BATCH, CHECK, COMMANDS, COPY, CREATE, EXPORT, FILE, FOLDER, LANDMARKS, MIGRATE,
    NETWORK, NEW, NUMBER, OLD, ONCE, REACH, REACHED, REHEARSE, ROUTE, SCRIPT, SERVE, SHOW, SOURCE,
    STORE, TARGET, UPGRADE,
};

/// A word or an option that a command takes.
#[derive(Clone, Copy)]
pub enum Taken {
    /// A text that has to stand at its place, by its name and with its help.
    Word(&'static str, &'static str),
    /// A number that has to stand at its place, by its name, with what help calls it and with its help.
    Number(&'static str, &'static str, &'static str),
    /// The file of the pairs, where no sources and targets are given.
    Pairs,
    /// `--from SS`.
    Sources,
    /// `--to SS`.
    Targets,
    /// The node where arcs end, if one is given.
    Head,
    /// Names of pipes, two for each client, as many as are given.
    Pipes,
    /// `--asking IN OUT ..`.
    Asking,
    /// `--copies FOLDER`.
    Copies,
    /// `--workers W`.
    Workers,
    /// `--patience S`.
    Patience,
    /// `--within L`.
    Within,
    /// `--routes`.
    Routes,
    /// `--delta D`, with its help.
    Delta(&'static str),
    /// `--journal J`, with its help.
    Journal(&'static str),
    /// `--room R`, with its help.
    Room(&'static str),
    /// `--verbose`.
    Verbose,
}

/// A word that names a job.
#[derive(Clone, Copy)]
pub enum JobWord {
    Once,
    Route,
    Batch,
    Reach,
    Reached,
    Rehearse,
    Create,
    Apply,
    Ask,
    Check,
    Serve,
    Migrate,
    Upgrade,
    Copy,
    Show,
    Export,
}

/// The words that name a job, in the order of the program's help.
pub const WORDS: [JobWord; 16] = [
    JobWord::Once,
    JobWord::Route,
    JobWord::Batch,
    JobWord::Reach,
    JobWord::Reached,
    JobWord::Rehearse,
    JobWord::Create,
    JobWord::Apply,
    JobWord::Ask,
    JobWord::Check,
    JobWord::Serve,
    JobWord::Migrate,
    JobWord::Upgrade,
    JobWord::Copy,
    JobWord::Show,
    JobWord::Export,
];

/// What the help of a word, or of the program, tells, and what it takes, in the order of that help.
pub struct HelpEntry {
    pub name: &'static str,
    pub about: &'static str,
    pub long_about: &'static str,
    pub after_help: &'static str,
    pub takes: &'static [Taken],
}

pub const PROGRAM_ENTRY: HelpEntry = HelpEntry {
    name: "roadmark",
    about: "Exact shortest-path lengths in a road network",
    long_about: ABOUT,
    after_help: "Example: roadmark < examples/six.txt",
    takes: &[Taken::Delta(DELTA_HELP)],
};

const ONCE_ENTRY: HelpEntry = HelpEntry {
    name: ONCE,
    about: "Prints the length of a shortest walk between two nodes",
    long_about: ABOUT_ONCE,
    after_help: "Example: roadmark once examples/six.gr 1 6",
    takes: &[
        Taken::Word(NETWORK, GR_HELP),
        Taken::Number(SOURCE, "S", "Node where the walk begins"),
        Taken::Number(TARGET, "T", "Node where the walk ends"),
        Taken::Delta(DELTA_HELP),
        Taken::Verbose,
    ],
};

const ROUTE_ENTRY: HelpEntry = HelpEntry {
    name: ROUTE,
    about: "Prints the arcs of a shortest walk between two nodes",
    long_about: ABOUT_ROUTE,
    after_help: "Example: roadmark route examples/six.gr 1 6",
    takes: &[
        Taken::Word(NETWORK, GR_HELP),
        Taken::Number(SOURCE, "S", "Node where the walk begins"),
        Taken::Number(TARGET, "T", "Node where the walk ends"),
        Taken::Delta(DELTA_HELP),
        Taken::Verbose,
    ],
};

const BATCH_ENTRY: HelpEntry = HelpEntry {
    name: BATCH,
    about: "Prints the length of a shortest walk for each pair of a file, or of a table",
    long_about: ABOUT_BATCH,
    after_help: "Example: roadmark batch examples/six.gr examples/six.p2p",
    takes: &[
        Taken::Word(NETWORK, GR_HELP),
        Taken::Pairs,
        Taken::Sources,
        Taken::Targets,
        Taken::Delta(DELTA_HELP),
        Taken::Verbose,
    ],
};

const REACH_ENTRY: HelpEntry = HelpEntry {
    name: REACH,
    about: "Prints the nodes to which walks from a node lead, and their distances",
    long_about: ABOUT_REACH,
    after_help: "Example: roadmark reach examples/six.gr 1 --within 10",
    takes: &[
        Taken::Word(NETWORK, GR_HELP),
        Taken::Number(SOURCE, "S", "Node where the walks begin"),
        Taken::Within,
        Taken::Delta(DELTA_HELP),
        Taken::Verbose,
    ],
};

const REACHED_ENTRY: HelpEntry = HelpEntry {
    name: REACHED,
    about: "Prints the nodes from which walks lead to a node, and their distances",
    long_about: ABOUT_REACHED,
    after_help: "Example: roadmark reached examples/six.gr 4 --within 2",
    takes: &[
        Taken::Word(NETWORK, GR_HELP),
        Taken::Number(TARGET, "T", "Node where the walks end"),
        Taken::Within,
        Taken::Delta(DELTA_HELP),
        Taken::Verbose,
    ],
};

const REHEARSE_ENTRY: HelpEntry = HelpEntry {
    name: REHEARSE,
    about: "Runs a script on a store in memory",
    long_about: ABOUT_REHEARSE,
    after_help: "Example: roadmark rehearse examples/six.gr examples/six.script",
    takes: &[
        Taken::Word(NETWORK, GR_HELP),
        Taken::Word(SCRIPT, "File of the script, or - for standard input"),
        Taken::Journal(JOURNAL_HELP),
        Taken::Room(ROOM_HELP),
        Taken::Delta(DELTA_HELP),
        Taken::Verbose,
    ],
};

const CREATE_ENTRY: HelpEntry = HelpEntry {
    name: CREATE,
    about: "Makes a store for a network and its landmarks",
    long_about: ABOUT_CREATE,
    after_help: "Example: roadmark create six.store examples/six.gr examples/six.ss",
    takes: &[
        Taken::Word(STORE, "File of the store, absent or empty"),
        Taken::Word(NETWORK, GR_HELP),
        Taken::Word(
            LANDMARKS,
            "File of the landmarks, a .ss text, or - for standard input",
        ),
        Taken::Journal(JOURNAL_HELP),
        Taken::Room(ROOM_HELP),
        Taken::Verbose,
    ],
};

const APPLY_ENTRY: HelpEntry = HelpEntry {
    name: APPLY,
    about: "Carries out the commands of a file on a store",
    long_about: ABOUT_APPLY,
    after_help: "Example: roadmark apply six.store examples/six.commands",
    takes: &[
        Taken::Word(STORE, STORE_HELP),
        Taken::Word(COMMANDS, "File of the commands, or - for standard input"),
        Taken::Delta(UNUSED_DELTA),
        Taken::Verbose,
    ],
};

const ASK_ENTRY: HelpEntry = HelpEntry {
    name: ASK,
    about: "Prints the length of a shortest walk for each pair, in a store's network",
    long_about: ABOUT_ASK,
    after_help: "Example: roadmark ask six.store examples/six.p2p",
    takes: &[
        Taken::Word(STORE, STORE_HELP),
        Taken::Pairs,
        Taken::Sources,
        Taken::Targets,
        Taken::Routes,
        Taken::Delta(DELTA_HELP),
        Taken::Verbose,
    ],
};

const CHECK_ENTRY: HelpEntry = HelpEntry {
    name: CHECK,
    about: "Checks the file of a store, and prints its version, slot and journal",
    long_about: ABOUT_CHECK,
    after_help: "Example: roadmark check six.store",
    takes: &[Taken::Word(STORE, STORE_HELP), Taken::Verbose],
};

const SERVE_ENTRY: HelpEntry = HelpEntry {
    name: SERVE,
    about: "Serves a store on standard input and output, and at pairs of named pipes",
    long_about: ABOUT_SERVE,
    after_help: AFTER_SERVE,
    takes: &[
        Taken::Word(STORE, STORE_HELP),
        Taken::Pipes,
        Taken::Asking,
        Taken::Copies,
        Taken::Workers,
        Taken::Patience,
        Taken::Delta(DELTA_HELP),
        Taken::Verbose,
    ],
};

const MIGRATE_ENTRY: HelpEntry = HelpEntry {
    name: MIGRATE,
    about: "Makes a store from one that an earlier program made",
    long_about: ABOUT_MIGRATE,
    after_help: "Example: roadmark migrate examples/old.store new.store --room 10",
    takes: &[
        Taken::Word(OLD, "File of the old store"),
        Taken::Word(NEW, NEW_HELP),
        Taken::Room(ROOM_HELP),
        Taken::Verbose,
    ],
};

const UPGRADE_ENTRY: HelpEntry = HelpEntry {
    name: UPGRADE,
    about: "Makes a store from another, for a new map of the roads",
    long_about: ABOUT_UPGRADE,
    after_help: "Example: roadmark upgrade six.store examples/six.gr new.gr new.store --room 10",
    takes: &[
        Taken::Word(STORE, "File of the old store"),
        Taken::Word(
            OLD,
            "File of the network that the store was made from, a .gr text, or - for standard input",
        ),
        Taken::Word(
            NETWORK,
            "File of the new network, a .gr text, or - for standard input",
        ),
        Taken::Word(NEW, NEW_HELP),
        Taken::Room(ROOM_HELP),
        Taken::Verbose,
    ],
};

const COPY_ENTRY: HelpEntry = HelpEntry {
    name: COPY,
    about: "Makes a copy of a store, with more room or another journal if asked for",
    long_about: ABOUT_COPY,
    after_help: "Example: roadmark copy six.store copy.store --room 10",
    takes: &[
        Taken::Word(STORE, STORE_HELP),
        Taken::Word(FILE, "File of the copy, absent or empty"),
        Taken::Room(COPIED_ROOM),
        Taken::Journal(COPIED_JOURNAL),
        Taken::Verbose,
    ],
};

const SHOW_ENTRY: HelpEntry = HelpEntry {
    name: SHOW,
    about: "Prints an arc, or all arcs from one node to another, in a store's network",
    long_about: ABOUT_SHOW,
    after_help: "Example: roadmark show six.store 7",
    takes: &[
        Taken::Word(STORE, STORE_HELP),
        Taken::Number(NUMBER, "K|T", NUMBER_HELP),
        Taken::Head,
        Taken::Verbose,
    ],
};

const EXPORT_ENTRY: HelpEntry = HelpEntry {
    name: EXPORT,
    about: "Writes a store's network as three texts",
    long_about: ABOUT_EXPORT,
    after_help: "Example: roadmark export six.store .",
    takes: &[
        Taken::Word(STORE, STORE_HELP),
        Taken::Word(
            FOLDER,
            "Folder in which the texts are made: network.gr, landmarks.ss and closed.commands",
        ),
        Taken::Verbose,
    ],
};

/// The entry of a word.
pub fn entry_of(word: JobWord) -> &'static HelpEntry {
    match word {
        JobWord::Once => &ONCE_ENTRY,
        JobWord::Route => &ROUTE_ENTRY,
        JobWord::Batch => &BATCH_ENTRY,
        JobWord::Reach => &REACH_ENTRY,
        JobWord::Reached => &REACHED_ENTRY,
        JobWord::Rehearse => &REHEARSE_ENTRY,
        JobWord::Create => &CREATE_ENTRY,
        JobWord::Apply => &APPLY_ENTRY,
        JobWord::Ask => &ASK_ENTRY,
        JobWord::Check => &CHECK_ENTRY,
        JobWord::Serve => &SERVE_ENTRY,
        JobWord::Migrate => &MIGRATE_ENTRY,
        JobWord::Upgrade => &UPGRADE_ENTRY,
        JobWord::Copy => &COPY_ENTRY,
        JobWord::Show => &SHOW_ENTRY,
        JobWord::Export => &EXPORT_ENTRY,
    }
}
