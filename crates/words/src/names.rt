//! The names of the words and options that jobs have, and the greatest numbers that they take.

// Ids of the words and options that a job has.
pub const NETWORK: &str = "GR";

pub const PAIRS: &str = "P2P";

pub const PIPES: &str = "PIPES";

pub const SCRIPT: &str = "SCRIPT";

pub const STORE: &str = "STORE";

pub const OLD: &str = "OLD";

pub const NEW: &str = "NEW";

pub const FILE: &str = "FILE";

pub const LANDMARKS: &str = "SS";

pub const COMMANDS: &str = "COMMANDS";

pub const FOLDER: &str = "FOLDER";

pub const NUMBER: &str = "K";

pub const HEAD: &str = "H";

pub const SOURCE: &str = "S";

pub const TARGET: &str = "T";

pub const SOURCES: &str = "from";

pub const TARGETS: &str = "to";

pub const WITHIN: &str = "within";

pub const DELTA: &str = "delta";

pub const COPIES: &str = "copies";

pub const ASKING: &str = "asking";

pub const JOURNAL: &str = "journal";

pub const ROOM: &str = "room";

pub const WORKERS: &str = "workers";

pub const PATIENCE: &str = "patience";

pub const ROUTES: &str = "routes";

pub const VERBOSE: &str = "verbose";

/// The greatest width of a search's buckets.
pub const MOST_WIDTH: u32 = 2147483647;

/// The most pages of a store's journal.
pub const MOST_JOURNAL_PAGES: u32 = 65536;

/// The most row workers of a desk.
pub const MOST_WORKERS: u32 = 64;

/// The most seconds for which a version is waited for: a day.
pub const MOST_PATIENCE: u32 = 86_400;

// The words that name a job.
pub const ONCE: &str = "once";

pub const ROUTE: &str = "route";

pub const BATCH: &str = "batch";

pub const REACH: &str = "reach";

pub const REACHED: &str = "reached";

pub const REHEARSE: &str = "rehearse";

pub const CREATE: &str = "create";

pub const APPLY: &str = "apply";

pub const ASK: &str = "ask";

pub const CHECK: &str = "check";

pub const SERVE: &str = "serve";

pub const MIGRATE: &str = "migrate";

pub const UPGRADE: &str = "upgrade";

pub const COPY: &str = "copy";

pub const SHOW: &str = "show";

pub const EXPORT: &str = "export";
