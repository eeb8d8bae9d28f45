ghost use Rattle.std.specs.Prelude.{◌≡◌, ◌⊎◌, [], OnErr, IfOk, IfErr, IsOk, IsSome};
ghost use mathlib.Core.List.{IsPrefix};
ghost use Rattle.rows.specs.declared.queries.Query.TheVariants.{Dist};
ghost use Rattle.rows.specs.Replies.{query_refusal_of, IsRight};
ghost use Rattle.rows.specs.Views.{AreRight};
ghost use Rattle.published.specs.Showing.{IsUnseen};
ghost use Rattle.desk.specs.Readings.{Reading, IsViewAfter, HasSeen};

use crate::readers::pins::Pinned;
use history::Front;
use office::Naming;
use published::Shown;
use roadnet::{OutOfMemory, Refusal};
use rows::{Query, Reply, Sight};
use std::alloc::Global;
use std::marker::{Model, PhantomData};
use std::thread::Threads;

/// A reader of the views that a desk shows. It takes no lock and waits for nobody. Contracts see it as the groups that it has seen or learned of, with the
/// view that it looked at last. It keeps up to 16 rows of that view, of 4 or 8 bytes a node.
#[derive(Drop)]
pub struct Reader<N: Naming> {
    reader: published::ShownReader,
    sight: Sight,
    of: PhantomData<N>,
}

impl<N: Naming> Model for Reader<N> {
    ghost use Rattle.std.specs.Prelude.{◌≡◌};
    ghost use Rattle.desk.specs.Readings.{Reading, HasSeen};

    ghost Value = { Reading };

    ghost view = { λ r. record { known = r.reader; view = r.sight } };

    ghost invariant = { λ r. (r.reader.origin ≡ N.origin) × HasSeen (record { known = r.reader; view = r.sight }) };
}

impl<N: Naming> Reader<N> {
    ghost use Rattle.std.specs.Borrow.{sem, RestsIfErr};
    ghost use Rattle.desk.specs.contracts.readers.reader.Reader.{the_row};

    /// A reader that looks for the first time.
    pub(crate) fn new(
        alloc: Global,
        mut reader: published::ShownReader,
    ) -> Result<Reader<N>, Refusal>
        requires { reader.origin ≡ N.origin }
        ensures origin { IfOk result (λ made. made.known.origin ≡ N.origin) }
        ensures view { IfOk result (λ made. IsViewAfter N.origin made.known.groups made.view) }
        ensures causes { IfErr result IsUnseen }
    {
        let view = reader.look()?;
        Ok(Reader {
            reader,
            sight: Sight::new(alloc, view),
            of: PhantomData,
        })
    }

    /// The front of the desk's history that it has seen or learned of.
    pub fn known(&self) -> &Front
        ensures groups { result.now ≡ self.now.known }
        ensures origin { result.now.origin ≡ N.origin }
    {
        self.reader.known()
    }

    /// Looks at the shown view. The groups after which it is shown begin with everything that the reader has seen and learned of. Then the reader has seen
    /// them.
    ///
    /// It fails with 11 if there is no memory for a share of the view, and with 61 if the desk is closed. Then nothing has changed.
    pub fn look(&mut self) -> Result<(), Refusal>
        ensures view { IfOk result (λ _. IsViewAfter N.origin self.new.known.groups self.new.view) }
        ensures begins { IsPrefix self.old.known.groups self.new.known.groups }
        ensures refused { OnErr result (self.new ≡ self.old) }
        ensures causes { IfErr result IsUnseen }
    {
        let view = self.reader.look()?;
        self.sight.look_at(view);
        Ok(())
    }

    /// The view that it looked at last, for queries. It is of the desk's network after groups that are the beginning of those that the reader knows.
    pub fn pinned(&mut self) -> Pinned<'_, N>
        ensures reader { result.reader.now ≡ self.old }
        ensures origin { result.reader.now.known.origin ≡ N.origin }
        ensures seen { HasSeen result.reader.now }
        ensures same { result.reader.ghost_name ≡ self.entry.ghost_name }
    {
        let _ = self.sight.version();
        Pinned::new(self)
    }

    /// Looks at the shown view, as `look` does, and lends the reader for queries of it. After a refusal nothing has changed.
    pub fn pin(&mut self) -> Result<Pinned<'_, N>, Refusal>
        ensures view { IfOk result (λ pinned. IsViewAfter N.origin pinned.reader.now.known.groups pinned.reader.now.view) }
        ensures begins { IfOk result (λ pinned. IsPrefix self.old.known.groups pinned.reader.now.known.groups) }
        ensures same { IfOk result (λ pinned. pinned.reader.ghost_name ≡ self.entry.ghost_name) }
        ensures* refused { sem 𝓛 (RestsIfErr (the_row N.row N.Naming) self.entry (λ pinned. pinned.reader.ghost_name) result (λ left. left ≡ self.old)) }
        ensures causes { IfErr result IsUnseen }
    {
        self.look()?;
        Ok(self.pinned())
    }

    /// Takes in what was shown: then the reader knows the longer of both lists of groups, which begins with the other.
    pub fn learn(&mut self, shown: &Shown)
        requires { shown.now.origin ≡ N.origin }
        ensures one { (self.new.known ≡ self.old.known) ⊎ (self.new.known ≡ shown.now) }
        ensures this { IsPrefix self.old.known.groups self.new.known.groups }
        ensures that { IsPrefix shown.now.groups self.new.known.groups }
        ensures view { self.new.view ≡ self.old.view }
    {
        self.reader.learn(shown);
    }

    /// The view that it looked at last, with its rows.
    pub(crate) fn sight(&self) -> &Sight
        ensures { result.now ≡ self.now.view }
    {
        &self.sight
    }

    /// The reply to `Dist` in the view that it looked at last.
    pub(crate) fn dist<R: Threads>(
        &mut self,
        rt: &R,
        alloc: Global,
        source: u64,
        target: u64,
    ) -> Result<Reply, OutOfMemory>
        ensures right { IfOk result (IsRight self.old.view.network (Dist source target)) }
        ensures refused { IsSome (query_refusal_of self.old.view.network (Dist source target)) → IsOk result }
        ensures same { self.new ≡ self.old }
    {
        self.sight
            .answer(rt, alloc, &Query::Dist { source, target })
    }

    /// The replies to `Dist` for pairs in the view that it looked at last.
    pub(crate) fn batch<R: Threads>(
        &mut self,
        rt: &R,
        alloc: Global,
        pairs: &[(u64, u64)],
    ) -> Result<Vec<Reply>, OutOfMemory>
        ensures right { IfOk result (λ replies. AreRight self.old.view.network pairs.now replies.items) }
        ensures empty { pairs.now ≡ [] → IsOk result }
        ensures same { self.new ≡ self.old }
    {
        self.sight.batch(rt, alloc, pairs)
    }
}
