ghost use Rattle.std.specs.Prelude.{◌≡◌, [], IfOk, IsOk, IsSome};
ghost use Rattle.rows.specs.declared.queries.Query.TheVariants.{Dist, From, Lower};
ghost use Rattle.rows.specs.Replies.{query_refusal_of, IsRight};
ghost use Rattle.rows.specs.Views.{AreRight};

use crate::readers::reader::Reader;
use office::Naming;
use roadnet::OutOfMemory;
use rows::Reply;
use std::alloc::Global;
use std::thread::Threads;

/// A reader that looked at a view and answers queries of it. While it is lent, it looks at no other view.
#[derive(Drop)]
pub struct Pinned<'a, N: Naming> {
    reader: &'a mut Reader<N>,
}

impl<'a, N: Naming> Pinned<'a, N> {
    pub(crate) fn new(reader: &'a mut Reader<N>) -> Pinned<'a, N>
        ensures reader { result.reader.now ≡ reader.old }
        ensures same { result.reader.ghost_name ≡ reader.entry.ghost_name }
    {
        Pinned { reader }
    }

    /// The version of the view. It takes no memory.
    pub fn version(&self) -> u64
        ensures { result ≡ self.now.reader.now.view.version }
    {
        self.reader.sight().version()
    }

    /// The width of the buckets of its searches. It takes no memory.
    pub fn width(&self) -> u32
        ensures { result ≡ self.now.reader.now.view.delta }
    {
        self.reader.sight().width()
    }

    /// The reply to `From`, from the landmark's row. It takes no memory.
    pub fn from_landmark(&self, landmark: u64, target: u64) -> Reply
        ensures { IsRight self.now.reader.now.view.network (From landmark target) result }
    {
        self.reader.sight().view().from_landmark(landmark, target)
    }

    /// The reply to `Lower`, from the rows of all landmarks. It takes no memory.
    pub fn lower(&self, source: u64, target: u64) -> Reply
        ensures { IsRight self.now.reader.now.view.network (Lower source target) result }
    {
        self.reader.sight().view().lower(source, target)
    }

    /// The reply to `Dist`, from a row that the reader keeps or a new one. The only error is lack of memory for a new row. A refused query takes none.
    pub fn dist<R: Threads>(
        &mut self,
        rt: &R,
        alloc: Global,
        source: u64,
        target: u64,
    ) -> Result<Reply, OutOfMemory>
        ensures right { IfOk result (IsRight self.old.reader.now.view.network (Dist source target)) }
        ensures refused { IsSome (query_refusal_of self.old.reader.now.view.network (Dist source target)) → IsOk result }
        ensures view { self.new.reader.now ≡ self.old.reader.now }
        ensures same { self.new.reader.ghost_name ≡ self.old.reader.ghost_name }
    {
        self.reader.dist(rt, alloc, source, target)
    }

    /// The replies to `Dist` for pairs of a source and a target, in their order. The only error is lack of memory, for 16 bytes a pair and a
    /// row.
    pub fn batch<R: Threads>(
        &mut self,
        rt: &R,
        alloc: Global,
        pairs: &[(u64, u64)],
    ) -> Result<Vec<Reply>, OutOfMemory>
        ensures right { IfOk result (λ replies. AreRight self.old.reader.now.view.network pairs.now replies.items) }
        // For no pairs it takes no memory.
        ensures empty { pairs.now ≡ [] → IsOk result }
        ensures view { self.new.reader.now ≡ self.old.reader.now }
        ensures same { self.new.reader.ghost_name ≡ self.old.reader.ghost_name }
    {
        self.reader.batch(rt, alloc, pairs)
    }
}
