ghost use Rattle.std.specs.Prelude.{◌≡◌, ◌⊎◌, OnErr, IfOk, IfErr};
ghost use Rattle.std.specs.Option.{ForSome};
ghost use mathlib.Core.List.{IsPrefix};
ghost use Rattle.roadnet.specs.Net.{IsNetwork};
ghost use Rattle.rows.specs.Backs.{LeadsBack};
ghost use Rattle.rows.specs.declared.queries.Query.TheVariants.{From, Lower};
ghost use Rattle.rows.specs.Replies.{are_nodes, IsRight};
ghost use Rattle.published.specs.Showing.{IsUnseen};
ghost use Rattle.desk.specs.Readings.{IsViewAfter};

use history::Front;
use office::Naming;
use published::Shown;
use roadnet::Refusal;
use rows::{Asker, Reply, View};
use shared_network::SharedNetwork;
use snapshot::Snapshot;
use std::marker::{Model, PhantomData};
use std::sync::Arc;

/// A reader place of a desk, for whoever looks now and then: between two looks it holds no view, and keeps no row. Contracts see it as the front of the
/// desk's history that it has seen or learned of. It takes no lock and waits for nobody.
#[derive(Drop)]
pub struct Place<N: Naming> {
    reader: published::ShownReader,
    of: PhantomData<N>,
}

impl<N: Naming> Model for Place<N> {
    ghost use Rattle.std.specs.Prelude.{◌≡◌};
    ghost use Rattle.history.specs.Origins.{Beginning};

    ghost Value = { Beginning };

    ghost view = { λ p. p.reader };

    ghost invariant = { λ p. p.reader.origin ≡ N.origin };
}

impl<N: Naming> Place<N> {
    /// A place that has seen as much as this reader.
    pub(crate) fn new(reader: published::ShownReader) -> Place<N>
        requires { reader.origin ≡ N.origin }
        ensures { result ≡ reader }
    {
        Place {
            reader,
            of: PhantomData,
        }
    }

    /// The front of the desk's history that it has seen or learned of.
    pub fn known(&self) -> &Front
        ensures known { result.now ≡ self.now }
        ensures origin { result.now.origin ≡ N.origin }
    {
        self.reader.known()
    }

    /// Looks at the shown view. The groups after which it is shown begin with everything that was seen and learned here, and then they are seen.
    ///
    /// It fails with 11 if there is no memory for a share of the view, and with 61 if the desk is closed. Then nothing has changed.
    pub fn look(&mut self) -> Result<Glance<N>, Refusal>
        ensures seen { IfOk result (λ glance. glance.known ≡ self.new) }
        ensures begins { IsPrefix self.old.groups self.new.groups }
        ensures refused { OnErr result (self.new ≡ self.old) }
        ensures causes { IfErr result IsUnseen }
    {
        let view = self.reader.look()?;
        Ok(Glance {
            view,
            groups: self.reader.known().again(),
            of: PhantomData,
        })
    }

    /// Takes in what was shown: then it knows the longer of both lists of groups, which begins with the other.
    pub fn learn(&mut self, shown: &Shown)
        requires { shown.now.origin ≡ N.origin }
        ensures one { (self.new ≡ self.old) ⊎ (self.new ≡ shown.now) }
        ensures this { IsPrefix self.old.groups self.new.groups }
        ensures that { IsPrefix shown.now.groups self.new.groups }
    {
        self.reader.learn(shown);
    }
}

/// What is seen at one moment: the shown view, with the groups after which it is shown. It holds the view as long as it exists.
#[derive(Drop)]
pub struct Glance<N: Naming> {
    view: Arc<View>,
    groups: Front,
    of: PhantomData<N>,
}

impl<N: Naming> Model for Glance<N> {
    ghost use Rattle.std.specs.Prelude.{◌≡◌};
    ghost use Rattle.desk.specs.Readings.{Reading, IsViewAfter};

    ghost Value = { Reading };

    ghost view = { λ g. record { known = g.groups; view = g.view.value } };

    ghost invariant = { λ g. (g.groups.origin ≡ N.origin) × IsViewAfter N.origin g.groups.groups g.view.value };
}

impl<N: Naming> Glance<N> {
    /// The groups after which the view is shown.
    pub(crate) fn groups(&self) -> &Front
        ensures known { result.now ≡ self.now.known }
        ensures origin { result.now.origin ≡ N.origin }
        ensures view { IsViewAfter N.origin result.now.groups self.now.view }
    {
        &self.groups
    }

    /// The version of the view. It takes no memory.
    pub fn version(&self) -> u64
        ensures version { result ≡ self.now.view.version }
        ensures view { IsViewAfter N.origin self.now.known.groups self.now.view }
    {
        self.view.version()
    }

    /// The width of the buckets of its searches. It takes no memory.
    pub fn width(&self) -> u32
        ensures { result ≡ self.now.view.delta }
    {
        self.view.width()
    }

    /// The network of the view. It takes no memory.
    pub fn network(&self) -> &SharedNetwork
        ensures { result.now ≡ self.now.view.network }
    {
        self.view.network()
    }

    /// An asker of the view. It takes no memory.
    pub(crate) fn asker(&self) -> Asker<'_>
        ensures { result ≡ self.now.view }
    {
        self.view.asker()
    }

    /// A share of all arcs of the network the other way round, with their numbers, if the view has them.
    pub fn back(&self) -> Option<Arc<Snapshot>>
        ensures { ForSome result (λ back. LeadsBack self.now.view.network back.value) }
    {
        self.view.back()
    }

    /// The reply to `From`, from the landmark's row. It takes no memory.
    pub fn from_landmark(&self, landmark: u64, target: u64) -> Reply
        ensures { IsRight self.now.view.network (From landmark target) result }
    {
        self.view.from_landmark(landmark, target)
    }

    /// The reply to `Lower`, from the rows of all landmarks. It takes no memory.
    pub fn lower(&self, source: u64, target: u64) -> Reply
        ensures { IsRight self.now.view.network (Lower source target) result }
    {
        self.view.lower(source, target)
    }

    /// Whether both are nodes of the view's network.
    pub(crate) fn are_nodes(&self, source: u64, target: u64) -> bool
        ensures nodes { result ≡ are_nodes self.now.view.network source target }
        ensures network { IsNetwork self.now.view.network }
    {
        let network = self.view.network();
        network.has_node(source) && network.has_node(target)
    }
}
