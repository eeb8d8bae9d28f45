//! Where clients come from.

use printing::Failed;

/// A place where clients come, one after the other.
pub trait Door<I, W> {
    /// Whether their sessions may only ask.
    fn asks_alone(&self) -> bool;

    /// The next client, once it has come: where its lines come from, and where its answers go. Nothing if no more clients come.
    fn next(&mut self) -> Option<(I, W)>;

    /// The session with the last client has ended, with this outcome. What was handed out is handed back, to be closed.
    fn ended(&mut self, reader: I, writer: W, outcome: Result<(), Failed>);
}
