// Queries answered.
ghost use Rattle.std.specs.Prelude.{◌≡◌, ℕ, IsOk, IsSome};
ghost use Rattle.rows.specs.declared.queries.Query.TheVariants.{From, Lower};
ghost use Rattle.rows.specs.Replies.{query_refusal_of};
ghost use Rattle.machine.specs.Calls.{Asks};
ghost use Rattle.keeper.specs.Keeping.{OfShown};
ghost use Rattle.keeper.specs.Parts.{or_out_of_memory};

use crate::keeper::keepers::Keeper;
use disk::Disk;
use machine::Answer;
use roadnet::OutOfMemory;
use rows::Query;
use std::thread::Threads;

impl<D: Disk> Keeper<D> {
    /// Answers a query from the shown view: the answer names the version, and its reply is right in the network at that version. No later stop takes that
    /// version back.
    ///
    /// The only error is lack of memory for a row. A refused query takes none, and neither does one from a landmark or for a bound.
    ///
    /// On a new store of `examples/six.gr`, `Dist { source: 1, target: 6 }` is `Length(15)` at version 0. With `Close { arc: 7 }` accepted and flushed it
    /// still is. Once the view of version 1 is shown it is `Length(22)` at version 1.
    pub fn ask<R: Threads>(&mut self, rt: &R, query: Query) -> Result<Answer, OutOfMemory>
        ensures step { Asks self.old.machine query (or_out_of_memory result) self.new.machine }
        ensures same { self.new ≡ self.old }
        ensures refused { OfShown self.old.machine (λ net. IsSome (query_refusal_of net query) → IsOk result) }
        ensures landmark { (l t : ℕ) → query ≡ From l t → IsOk result }
        ensures lower { (s t : ℕ) → query ≡ Lower s t → IsOk result }
    {
        let version = self.shown.version();
        let reply = self.shown.answer(rt, self.alloc, &query)?;
        Ok(Answer { version, reply })
    }
}
