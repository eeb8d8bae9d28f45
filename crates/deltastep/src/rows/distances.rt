ghost use Rattle.std.specs.Prelude.{◌≡◌};

use crate::rows::words::Words;
use chunked::ChunkedWords;
use relax::SharedTentative;
use roadnet::OutOfMemory;
use std::alloc::{AllocError, Global};
use std::marker::Model;
use std::sync::Arc;
use thiserror::Error;

/// The word that means "no walk leads there". It is above each least length.
pub const NO_WALK: u64 = u64::MAX;

/// The row of one node: the least length of a walk to each node, or that no walk leads there. It takes 4 bytes a node if each least length is below 2^32 -
/// 1, otherwise 8. All shares of a row use the same memory.
#[derive(Drop)]
pub struct Distances {
    words: Arc<Words>,
}

impl Model for Distances {
    ghost use Rattle.std.specs.Prelude.{List, Option, ℕ};
    ghost use Rattle.deltastep.specs.Words.{distances_of};

    ghost Value = { List (Option ℕ) };

    ghost view = { λ a. distances_of a.words.value };
}

impl Distances {
    ghost use Rattle.std.specs.Prelude.{◌≡◌, ◌∷◌, None, IfOk, IfSome, map};
    ghost use Rattle.roadnet.specs.Walks.{distance_at};
    ghost use Rattle.deltastep.specs.Words.{distance_of_short, distance_of_word, distances_of};

    /// The least length of a walk to this node; nothing if no walk leads there, or if the network has no such node. It takes no memory.
    ///
    /// In the row of node 1 of the network of `examples/six.gr`, 4 gives 12, and 0 and 7 give nothing.
    pub fn get(&self, node: u64) -> Option<u64>
        ensures { result ≡ distance_at self.now node }
    {
        self.words.get(node)
    }

    /// The words of a row that is kept in words of 4 bytes, from node 1 on. 2^32 - 1 means that no walk leads there. It takes no memory.
    pub fn short_words(&self) -> Option<&ChunkedWords>
        ensures { IfSome result (λ words. self.now ≡ map distance_of_short words.now) }
    {
        self.words.short()
    }

    /// The same distances as the values of a repair, which share the words of this row, if it is kept in words of 4 bytes. It takes a counter for
    /// each 262,144 nodes.
    pub(crate) fn to_tentative(&self) -> Result<Option<SharedTentative>, RowError>
        ensures { IfOk result (λ shared. IfSome shared (λ tentative. tentative ≡ None ∷ self.now)) }
    {
        let Some(words) = self.words.short() else {
            return Ok(None);
        };
        Ok(Some(SharedTentative::from_words(words.share()?)))
    }

    /// The distances of a repair's values. It takes some 50 bytes, and that they cannot be had is the only error.
    pub(crate) fn from_tentative(
        alloc: Global,
        tentative: SharedTentative,
    ) -> Result<Distances, RowError>
        ensures { IfOk result (λ row. tentative ≡ None ∷ row) }
    {
        Distances::of(alloc, Words::Short(tentative.into_words()))
    }

    /// A share of this row: the same words, which are freed with the last share. The only error is that no share can be made.
    pub fn share(&self) -> Result<Distances, RowError>
        ensures { IfOk result (λ shared. shared ≡ self.now) }
    {
        let words = Arc::try_clone(&self.words)?;
        Ok(Distances { words })
    }

    /// The distances of these words. It takes 4 bytes a node and frees 8, if the distances fit and there is memory. The only error is lack of memory for
    /// what all shares of a row have in common, some 50 bytes.
    pub(crate) fn from_words(words: Vec<u64>) -> Result<Distances, RowError>
        ensures { IfOk result (λ row. row ≡ map distance_of_word words.items) }
    {
        Distances::of(*words.allocator(), Words::new(words))
    }

    /// The row that is kept so. The only error is lack of memory for what all shares of a row have in common.
    fn of(alloc: Global, words: Words) -> Result<Distances, RowError>
        ensures { IfOk result (λ row. row ≡ distances_of words) }
    {
        let Ok(words) = Arc::new(alloc, words) else {
            return Err(RowError::OutOfMemory);
        };
        Ok(Distances { words })
    }
}

/// Why no row was made: there was no memory. There is no other reason.
#[derive(Clone, Copy, Debug, PartialEq, Eq, Error)]
pub enum RowError {
    /// There was no memory.
    #[error("11 OutOfMemory")]
    OutOfMemory,
}

impl From<AllocError> for RowError {
    ghost use Rattle.deltastep.specs.declared.rows.distances.RowError.TheVariants.{OutOfMemory as out_of_memory};

    ghost from_gives = { λ _ error. error ≡ out_of_memory };

    fn from(_error: AllocError) -> RowError {
        RowError::OutOfMemory
    }
}

impl From<OutOfMemory> for RowError {
    ghost use Rattle.deltastep.specs.declared.rows.distances.RowError.TheVariants.{OutOfMemory as out_of_memory};

    ghost from_gives = { λ _ error. error ≡ out_of_memory };

    fn from(_error: OutOfMemory) -> RowError {
        RowError::OutOfMemory
    }
}
