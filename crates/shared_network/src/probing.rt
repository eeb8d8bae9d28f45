//! What of a network its commands are judged by.

ghost use Rattle.roadnet.specs.Batches.{first_refusal_of_all};
ghost use Rattle.roadnet.specs.Judging.{IsVerdict};

use crate::networks::SharedNetwork;
use roadnet::{Group, Probed, Refusal, admit_all};

impl Probed for SharedNetwork {
    ghost use Rattle.roadnet.specs.Outlines.{outline_of};

    ghost outline = { outline_of };

    fn knows_node(&self, x: u64) -> bool {
        self.has_node(x)
    }

    fn flag_of(&self, k: u64) -> Option<bool> {
        match self.arc(k) {
            Some(arc) => Some(arc.opened),
            None => None,
        }
    }

    fn is_marked(&self, x: u64) -> bool {
        self.is_landmark(x)
    }

    fn count_arcs(&self) -> u64 {
        self.arcs.len() as u64
    }

    fn count_landmarks(&self) -> u64 {
        self.landmarks().len() as u64
    }

    fn most_arcs(&self) -> u64 {
        u64::from(self.room)
    }
}

impl SharedNetwork {
    /// Whether the groups may be carried out one after another. Otherwise the refusal of the first command that is not admitted after those before it. It
    /// takes no memory.
    pub(crate) fn admit_groups(&self, groups: &[Group]) -> Result<(), Refusal>
        ensures { IsVerdict (first_refusal_of_all self.now groups.now) result }
    {
        let _nodes = self.nodes();
        admit_all(self, groups)
    }
}
