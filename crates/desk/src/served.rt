//! What a served desk stands on, as one parameter.

use crate::gates::Gate;
use disk::Disk;
use office::{Naming, Office};
use std::marker::PhantomData;
use std::sync::Wait;
use std::thread::Threads;
use std::time::Clock;

/// What a desk stands on.
pub trait Served {
    /// The name of the desk, by which tickets and receipts show which desk they are of.
    type Naming: Naming;

    /// The disk that the flusher owns.
    type Disk: Disk + Drop;

    /// The gate that the desk's threads share.
    type Gate: Gate + Drop;

    /// The runtime that the desk's threads share, with a clock for their rests.
    type Runtime: Threads + Wait + Clock + Copy;
}

/// The same for a desk that is started: all of it may go to another thread.
pub trait ServedApart: Send + 'static {
    type Naming: Naming + Send + Sync + 'static;

    type Disk: Disk + Drop + Send + 'static;

    type Gate: Gate + Drop + Send + Sync + 'static;

    type Runtime: Threads + Wait + Clock + Copy + Send + Sync + 'static;
}

impl<S: ServedApart> Served for S {
    type Naming = <S as ServedApart>::Naming;

    type Disk = <S as ServedApart>::Disk;

    type Gate = <S as ServedApart>::Gate;

    type Runtime = <S as ServedApart>::Runtime;
}

/// What a desk stands on, given by four types.
pub struct Over<N, D, G, R> {
    of: PhantomData<(N, D, G, R)>,
}

impl<
    N: Naming + Send + Sync + 'static,
    D: Disk + Drop + Send + 'static,
    G: Gate + Drop + Send + Sync + 'static,
    R: Threads + Wait + Clock + Copy + Send + Sync + 'static,
> ServedApart for Over<N, D, G, R> {
    type Naming = N;

    type Disk = D;

    type Gate = G;

    type Runtime = R;
}

/// What lies under the lock of a desk.
pub(crate) type OfficeOf<S> = Office<<S as Served>::Naming, <S as Served>::Disk>;
