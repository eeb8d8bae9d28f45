// The two threads of a desk.
ghost use Rattle.std.specs.Prelude.{IfErr};
ghost use Rattle.desk.specs.Openings.{IsUnstarted};

use roadnet::Refusal;
use std::thread::{self, JoinHandle, Threads};

/// The flusher and the builder.
#[derive(Drop)]
pub(crate) struct StartedThreads {
    pub(crate) flusher: JoinHandle<()>,
    pub(crate) builder: JoinHandle<()>,
}

impl StartedThreads {
    /// Waits until both have ended.
    pub(crate) fn join<R: Threads>(self, rt: &R) {
        let StartedThreads { flusher, builder } = self;
        flusher.join(rt);
        builder.join(rt);
    }
}

/// Starts a thread that does this work over what it is handed. It fails with 63 if the system gives no thread.
///
/// Nothing is known here of what the thread is handed, except that it may go to another thread.
pub(crate) fn start_thread<
    R: Threads,
    T: Send + Drop + 'static,
    F: FnOnce(T) + Send + Drop + 'static,
>(rt: &R, shared: T, work: F) -> Result<JoinHandle<()>, Refusal>
    requires { F.IsAlwaysCallable work }
    ensures causes { IfErr result IsUnstarted }
{
    let started = thread::spawn(
        rt,
        move ||
            requires { F.IsAlwaysCallable work }
        { work(shared) },
    );
    match started {
        Ok(thread) => Ok(thread),
        Err(_) => Err(Refusal::NoThread),
    }
}
