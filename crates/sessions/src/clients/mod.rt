//! Sessions with clients: one, or many who come by doors.

pub(crate) mod answering;
pub(crate) mod doors;
pub(crate) mod past;
mod served;
pub(crate) mod serving;
