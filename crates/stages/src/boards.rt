//! A gate that a case holds and lets go, and that notes what it was asked.
use blocks::Head;
use desk::Gate;
use roadnet::Refusal;
use std::alloc::Global;
use std::sync::atomic::{AtomicBool, AtomicU64, Ordering};
use std::sync::{Arc, Mutex, Wait};
use std::thread;
use std::time::{Clock, Duration, Instant};

/// How often is looked for what has to come, a millisecond apart.
const MOST_TURNS: u32 = 10000;

/// The calls of one kind.
#[derive(Drop)]
pub struct Post {
    asked: AtomicU64,
    passes: AtomicU64,
    /// So many calls find no memory.
    misses: u64,
    /// The number of each call, and its time, in milliseconds from the gate's beginning on.
    noted: Mutex<Vec<(u64, u64)>>,
    /// A call was held for too long, and went on by itself.
    has_expired: AtomicBool,
}

/// Looks until the word is as great, 10,000 times at most.
pub fn reaches<R: Clock>(rt: &R, word: &AtomicU64, least: u64) -> bool {
    for _ in 0..MOST_TURNS {
        if word.load(Ordering::SeqCst) >= least {
            return true;
        }
        thread::sleep(rt, Duration::from_millis(1));
    }
    false
}

/// Whether the gate of a head holds the calls of this name.
fn is_held(head: Head<'_>, name: &str) -> bool {
    head.value("held")
        .is_some_and(|held| held.split(",").any(|it| it == name))
}

impl Post {
    /// Those of this name by a head, of which so many find no memory.
    fn new(alloc: Global, head: Head<'_>, name: &str, misses: Option<u64>) -> Post {
        let passes = if is_held(head, name) { 0 } else { u64::MAX };
        Post {
            asked: AtomicU64::new(0),
            passes: AtomicU64::new(passes),
            misses: misses.unwrap_or(0),
            noted: Mutex::new(Vec::new(alloc)),
            has_expired: AtomicBool::new(false),
        }
    }

    /// A call with this number, at this time: it is held until it may pass. Answers whether it finds memory.
    fn pass<R: Wait + Clock>(&self, rt: &R, number: u64, millis: u64) -> bool {
        let _ = self.noted.lock(rt).push((number, millis));
        let place = self.asked.fetch_add(1, Ordering::SeqCst);
        if !reaches(rt, &self.passes, place.saturating_add(1)) {
            self.has_expired.store(true, Ordering::SeqCst);
        }
        place >= self.misses
    }

    /// So many calls may pass.
    pub fn let_pass(&self, passes: u64) {
        self.passes.store(passes, Ordering::SeqCst);
    }

    /// Whether so many calls come.
    pub fn is_asked<R: Clock>(&self, rt: &R, times: u64) -> bool {
        reaches(rt, &self.asked, times)
    }

    /// The numbers that it was called with.
    pub fn numbers<R: Wait>(&self, rt: &R, alloc: Global) -> Result<Vec<u64>, Refusal> {
        let mut numbers = Vec::new(alloc);
        for &(number, _) in self.noted.lock(rt).iter() {
            if numbers.push(number).is_err() {
                return Err(Refusal::OutOfMemory);
            }
        }
        Ok(numbers)
    }

    /// How many milliseconds lie between the second call and the third.
    pub fn rest<R: Wait>(&self, rt: &R) -> Option<u64> {
        match self.noted.lock(rt).as_slice() {
            [_, (_, second), (_, third), ..] => Some(third.saturating_sub(*second)),
            _ => None,
        }
    }
}

/// What a gate notes, and how it is held.
#[derive(Drop)]
pub struct Board {
    pub flush: Post,
    pub task: Post,
    pub step: Post,
    pub row: Post,
    /// By landmark, of nodes 1 to 6, the numbers of the workers that were to make its row, added up.
    workers: [AtomicU64; 6],
    /// For how many milliseconds no memory is found, from when on.
    short_for: u64,
    since: Option<Instant>,
    /// How many milliseconds a flush takes longer.
    slow_flush: u64,
    /// How often the builder gave up.
    given_up: AtomicU64,
}

/// Nothing is counted yet.
fn none() -> AtomicU64 {
    AtomicU64::new(0)
}

impl Board {
    /// The board of a head.
    pub fn new<R: Clock>(rt: &R, alloc: Global, head: Head<'_>) -> Board {
        Board {
            flush: Post::new(alloc, head, "flush", head.number_of("flush-misses")),
            task: Post::new(alloc, head, "task", head.number_of("task-misses")),
            step: Post::new(alloc, head, "step", head.number_of("step-misses")),
            row: Post::new(alloc, head, "row", None),
            workers: [none(), none(), none(), none(), none(), none()],
            short_for: head.number_of("short-for").unwrap_or(0),
            since: Instant::now(rt).ok(),
            slow_flush: head.number_of("slow-flush").unwrap_or(0),
            given_up: none(),
        }
    }

    /// The calls of this name.
    pub fn post(&self, name: &str) -> &Post {
        match name {
            "flush" => &self.flush,
            "task" => &self.task,
            "step" => &self.step,
            _ => &self.row,
        }
    }

    /// How many milliseconds have passed since the gate's beginning.
    fn millis<R: Clock>(&self, rt: &R) -> u64 {
        let Some(since) = self.since else {
            return u64::MAX;
        };
        match since.elapsed(rt) {
            Ok(elapsed) => elapsed
                .as_secs()
                .saturating_mul(1000)
                .saturating_add(u64::from(elapsed.subsec_millis())),
            Err(_) => u64::MAX,
        }
    }

    /// Which worker was to make the row of this node, 0 for none.
    fn worker(&self, node: usize) -> u64 {
        match self.workers.get(node.wrapping_sub(1)) {
            Some(sum) => sum.load(Ordering::SeqCst),
            None => 0,
        }
    }

    /// The same of each node.
    pub fn workers(&self) -> [u64; 6] {
        [
            self.worker(1),
            self.worker(2),
            self.worker(3),
            self.worker(4),
            self.worker(5),
            self.worker(6),
        ]
    }

    /// How often the builder gave up.
    pub fn given_up(&self) -> u64 {
        self.given_up.load(Ordering::SeqCst)
    }

    /// Whether a call was held for too long.
    pub fn has_expired(&self) -> bool {
        [&self.flush, &self.task, &self.step, &self.row]
            .iter()
            .any(|post| post.has_expired.load(Ordering::SeqCst))
    }
}

/// The gate of a board.
#[derive(Drop)]
pub struct Watch<R: Wait + Clock> {
    pub rt: R,
    pub board: Arc<Board>,
}

impl<R: Wait + Clock> Gate for Watch<R> {
    fn before_row(&self, worker: u32, landmark: u32) {
        if let Some(sum) = self.board.workers.get((landmark as usize).wrapping_sub(1)) {
            sum.fetch_add(u64::from(worker), Ordering::SeqCst);
        }
        let _ = self.board.row.pass(&self.rt, u64::from(landmark), 0);
    }

    fn before_flush(&self, durable: u64) -> bool {
        let millis = self.board.millis(&self.rt);
        thread::sleep(&self.rt, Duration::from_millis(self.board.slow_flush));
        self.board.flush.pass(&self.rt, durable, millis) && millis >= self.board.short_for
    }

    fn before_task(&self, durable: u64) -> bool {
        let millis = self.board.millis(&self.rt);
        self.board.task.pass(&self.rt, durable, millis) && millis >= self.board.short_for
    }

    fn before_step(&self, version: u64) -> bool {
        let millis = self.board.millis(&self.rt);
        self.board.step.pass(&self.rt, version, millis)
    }

    fn builder_gave_up(&self) {
        self.board.given_up.fetch_add(1, Ordering::SeqCst);
    }
}
