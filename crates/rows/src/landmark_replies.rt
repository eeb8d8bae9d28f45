//! Replies from the rows of a view's landmarks.

ghost use Rattle.rows.specs.declared.queries.Query.TheVariants.{From, Lower};
ghost use Rattle.rows.specs.Replies.{IsRight};

use crate::answers::{distance_in, refusal_of};
use crate::bounds::bound_by;
use crate::queries::{Query, Reply};
use crate::views::View;

impl View {
    /// The reply to `From`, from the landmark's row. It takes no memory.
    ///
    /// In the network of `examples/six.gr` with the landmark 3, from 3 to 4 it is `Length(2)`, from 3 to 1 `NoWalk`, and from 1 to 4
    /// `Refused(NotALandmark)`.
    pub fn from_landmark(&self, landmark: u64, target: u64) -> Reply
        ensures { IsRight self.now.network (From landmark target) result }
    {
        let query = Query::From { landmark, target };
        if let Some(refusal) = refusal_of(self.network(), &query) {
            return Reply::Refused(refusal);
        }
        let row = self.row_of(landmark as u32);
        distance_in(&row.distances, target)
    }

    /// The reply to `Lower`, from the rows of all landmarks, each read once. It takes no memory.
    ///
    /// In the network of `examples/six.gr` with the landmark 3, whose row has 0 for node 5 and 5 for node 6, from 5 to 6 it is `AtLeast(5)`;
    /// from 5 to 1 it is `NoWalk`, since 3 reaches 5 and not 1.
    pub fn lower(&self, source: u64, target: u64) -> Reply
        ensures { IsRight self.now.network (Lower source target) result }
    {
        let query = Query::Lower { source, target };
        if let Some(refusal) = refusal_of(self.network(), &query) {
            return Reply::Refused(refusal);
        }
        bound_by(self, source, target)
    }
}
