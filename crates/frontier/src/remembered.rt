use crate::paged::PagedFlags;
use roadnet::OutOfMemory;
use std::alloc::Global;
use std::marker::Model;

/// Nodes, each once, in the order in which they were first added. It takes 4 bytes a node, at most a bit for each number below its limit, in pages of 32,768
/// numbers that are made when one of theirs is added, and 24 bytes a page.
#[derive(Drop)]
pub struct Remembered {
    flags: PagedFlags,
    nodes: Vec<u32>,
}

impl Model for Remembered {
    ghost use Rattle.std.specs.Prelude.{map};
    ghost use Rattle.frontier.specs.Remembered.{Memory, AreFlags};

    ghost Value = { Memory };

    ghost view = { λ r. record { limit = r.flags.limit; nodes = r.nodes.items } };

    ghost invariant = { λ r. AreFlags (map (λ page. page.items) r.flags.pages.items) r.nodes.items };
}

impl Remembered {
    ghost use Rattle.std.specs.Prelude.{◌≡◌, ◌<◌, ◌==◌, ◌↔◌, [], IsTrue, OnOk, IfOk, All, MatchBool, length};
    ghost use Rattle.std.specs.List.{IsDistinct};
    ghost use Rattle.frontier.specs.Remembered.{remember, remember_all};

    /// An empty list of nodes below the limit.
    pub fn new(alloc: Global, limit: usize) -> Result<Remembered, OutOfMemory>
        ensures none { IfOk result (λ remembered. remembered ≡ record { limit = limit; nodes = [] }) }
    {
        Ok(Remembered {
            flags: PagedFlags::new(alloc, limit)?,
            nodes: Vec::new(alloc),
        })
    }

    /// Whether it has no node and this limit.
    pub fn is_fresh(&self, limit: usize) -> bool
        ensures { IsTrue result ↔ (self.now ≡ record { limit = limit; nodes = [] }) }
    {
        self.nodes.is_empty() && self.flags.limit == limit
    }

    /// The nodes in the order in which they were first added.
    pub fn nodes(&self) -> &[u32]
        ensures value { result.now ≡ self.now.nodes }
        ensures once { IsDistinct (λ a b. a == b) self.now.nodes }
    {
        &self.nodes
    }

    /// Adds a node, unless it is there.
    #[inline(always)]
    pub fn add(&mut self, node: u32) -> Result<(), OutOfMemory>
        requires within { node < self.old.limit }
        ensures added { OnOk result (self.new.nodes ≡ remember self.old.nodes node) }
        ensures limit { self.new.limit ≡ self.old.limit }
    {
        if self.flags.is_up(node as usize) {
            return Ok(());
        }
        let Ok(()) = self.flags.make_room(node as usize) else {
            return Err(OutOfMemory);
        };
        let Ok(()) = self.nodes.push(node) else {
            return Err(OutOfMemory);
        };
        self.flags.raise(node as usize);
        Ok(())
    }

    /// Adds nodes in their order.
    #[inline(always)]
    pub fn add_all(&mut self, nodes: &[u32]) -> Result<(), OutOfMemory>
        requires within { All (λ u. u < self.old.limit) nodes.now }
        ensures added { OnOk result (self.new.nodes ≡ remember_all self.old.nodes nodes.now) }
        ensures limit { self.new.limit ≡ self.old.limit }
    {
        for &node in nodes {
            self.add(node)?;
        }
        Ok(())
    }

    /// Forgets the node that was added last. Returns whether there was one.
    #[inline(always)]
    fn forget_last(&mut self) -> bool
        ensures fewer { MatchBool result (length self.new.nodes < length self.old.nodes) (self.new.nodes ≡ []) }
        ensures limit { self.new.limit ≡ self.old.limit }
    {
        let Some(node) = self.nodes.pop() else {
            return false;
        };
        self.flags.lower(node as usize);
        true
    }

    /// Forgets all nodes, in time for those that are there.
    #[inline(always)]
    pub fn clear(&mut self)
        ensures none { self.new.nodes ≡ [] }
        ensures limit { self.new.limit ≡ self.old.limit }
    {
        'nodes: while self.forget_last() {}
    }
}
