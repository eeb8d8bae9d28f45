/// How many commands of accepted groups may be pending.
pub const MOST_PENDING: u64 = 4096;

/// How many commands a life may accept.
pub const MOST_OF_LIFE: usize = 16777216;

/// The most pages of a step of a checkpoint. A whole checkpoint and a server take steps of this many.
pub const PAGES_OF_STEP: u32 = 64;
