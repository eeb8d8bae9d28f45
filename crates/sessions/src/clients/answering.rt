//! Which sessions are within an answer, so that a server that ends can wait for them.
use desk::{EndedDesk, Served};
use std::sync::atomic::{AtomicU64, Ordering};
use std::thread;
use std::time::{Clock, Duration};

/// How many sessions are within an answer: they have read a line, and its answer has not been sent yet.
#[derive(Drop)]
pub struct Answering {
    count: AtomicU64,
    /// 1 once answers that begin are no longer counted.
    ending: AtomicU64,
}

impl Answering {
    /// No session is within an answer.
    pub fn new() -> Answering {
        Answering {
            count: AtomicU64::new(0),
            ending: AtomicU64::new(0),
        }
    }

    /// A session has read a line. Returns whether it is counted.
    pub(crate) fn begin(&self) -> bool {
        if self.ending.load(Ordering::SeqCst) != 0 {
            return false;
        }
        self.count.fetch_add(1, Ordering::SeqCst);
        true
    }

    /// The answer was sent, or cannot be.
    pub(crate) fn end(&self, is_counted: bool) {
        if is_counted {
            self.count.fetch_sub(1, Ordering::SeqCst);
        }
    }

    /// Gives the sessions that are within an answer so many milliseconds to send it, and returns whether all have. It does not wait for answers that begin
    /// from now on. Their desk has ended, so none of them waits for a view.
    pub fn let_finish<R: Clock, S: Served>(
        &self,
        rt: &R,
        _desk: &EndedDesk<S>,
        millis: u64,
    ) -> bool {
        self.ending.store(1, Ordering::SeqCst);
        for _ in 0..millis {
            if self.count.load(Ordering::SeqCst) == 0 {
                return true;
            }
            thread::sleep(rt, Duration::from_millis(1));
        }
        self.count.load(Ordering::SeqCst) == 0
    }
}
