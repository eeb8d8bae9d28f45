use std::marker::PhantomData;
use std::sync::atomic::AtomicPtr;
use std::thread::Threads;

/// The permit to start threads, given by a runtime. It holds no runtime, so each thread may have it.
#[derive(Drop)]
pub struct Permit<R> {
    from: PhantomData<AtomicPtr<R>>,
}

impl<R: Threads> Threads for Permit<R> {}

impl<R: Threads> Permit<R> {
    /// The permit of this runtime.
    pub fn of(_rt: &R) -> Permit<R> {
        Permit { from: PhantomData }
    }
}
