ghost use Rattle.std.specs.Prelude.{◌≡◌, ◌≢◌, [], ◌∷◌, ◌++◌, None, IfSome};
ghost use Rattle.relax.specs.Values.{no_value};

use crate::known::Known;
use roadnet::OutOfMemory;
use std::alloc::Global;
use std::marker::Model;

/// The word that means "no value".
const NO_VALUE: u64 = u64::MAX;

/// For each node of a network the least length of a walk that a search has found so far, or nothing. It takes 8 bytes a node.
///
/// One that notes the nodes that get a value, at 4 bytes each, can be wiped in time for those nodes alone.
#[derive(Debug, Drop)]
pub struct Tentative {
    words: Vec<u64>,
    noted: Option<Vec<u32>>,
}

impl Model for Tentative {
    ghost use Rattle.std.specs.Prelude.{List, ◌∷◌, Option, None, ℕ, map, IfSome};
    ghost use Rattle.relax.specs.Values.{value_of_word};
    ghost use Rattle.relax.specs.Noted.{AreNoted};

    ghost Value = { List (Option ℕ) };

    ghost view = { λ t. None ∷ map value_of_word t.words.items };

    ghost invariant = { λ t. IfSome t.noted (λ nodes. AreNoted (None ∷ map value_of_word t.words.items) nodes.items) };
}

/// What is noted, and one more node if its word says that it has no value yet; or nothing if there is no memory left for it.
#[inline(always)]
fn noted_with(noted: Option<Vec<u32>>, word: u64, node: u32) -> Option<Vec<u32>>
    ensures more { IfSome result (λ new. IfSome noted (λ old. word ≡ no_value → new.items ≡ old.items ++ node ∷ [])) }
    ensures same { IfSome result (λ new. IfSome noted (λ old. word ≢ no_value → new.items ≡ old.items)) }
    ensures none { noted ≡ None → result ≡ None }
{
    let mut nodes = noted?;
    if word != NO_VALUE {
        return Some(nodes);
    }
    if nodes.push(node).is_err() {
        return None;
    }
    Some(nodes)
}

impl Tentative {
    ghost use Rattle.std.specs.Prelude.{◌≡◌, ℕ, ◌+◌, ◌≤◌, ◌<◌, ◌^◌, ◌⊎◌, List, [], ◌∷◌, ◌++◌, Option, Some, None, replicate, map, length, slice_set, All, IfOk, IfSome};
    ghost use Rattle.std.specs.Bool.{OnTrue};
    ghost use Rattle.relax.specs.Values.{value_at, no_value, value_of_word};
    ghost use Rattle.relax.specs.Noted.{AreNoted};

    /// No value for any of the nodes 1 to `nodes`. The only error is lack of memory, for 8 bytes a node.
    pub fn new(alloc: Global, nodes: u32) -> Result<Tentative, OutOfMemory>
        ensures none { IfOk result (λ tentative. tentative ≡ replicate (nodes + 1) None) }
    {
        Ok(Tentative {
            words: vec![in alloc; NO_VALUE; nodes as usize]?,
            noted: None,
        })
    }

    /// The same, and the nodes that get a value are noted as long as there is memory for that.
    pub fn noting(alloc: Global, nodes: u32) -> Result<Tentative, OutOfMemory>
        ensures none { IfOk result (λ tentative. tentative ≡ replicate (nodes + 1) None) }
    {
        let mut tentative = Tentative::new(alloc, nodes)?;
        tentative.noted = Some(Vec::new(alloc));
        Ok(tentative)
    }

    /// Whether it has places for the nodes 1 to `nodes`, notes nodes, and has noted none: then no node has a value.
    pub fn is_blank(&self, nodes: u32) -> bool
        ensures { OnTrue result (self.now ≡ replicate (nodes + 1) None) }
    {
        let Some(noted) = &self.noted else {
            return false;
        };
        if noted.len() != 0 {
            return false;
        }
        if self.words.len() != nodes as usize {
            return false;
        }
        true
    }

    /// The noted nodes, if nodes are noted: all that have a value are among them. It takes no memory.
    pub fn noted(&self) -> Option<&[u32]>
        ensures { IfSome result (λ nodes. AreNoted self.now nodes.now) }
    {
        match &self.noted {
            Some(nodes) => Some(nodes),
            None => None,
        }
    }

    /// Removes all values, in time for the noted nodes, or, if they were not noted, for all nodes.
    pub fn wipe(&mut self)
        ensures blank { self.new ≡ replicate (length self.old) None }
    {
        match self.noted.take() {
            Some(noted) => self.wipe_noted(noted),
            None => self.words.fill(NO_VALUE),
        }
    }

    /// Removes the values of these nodes, which are all that have one. Then no node is noted.
    fn wipe_noted(&mut self, noted: Vec<u32>)
        requires noted { AreNoted self.old noted.items }
        ensures blank { self.new ≡ replicate (length self.old) None }
    {
        self.clear_all(&noted);
        let mut noted = noted;
        noted.clear();
        self.noted = Some(noted);
    }

    /// Removes the values of these nodes.
    fn clear_all(&mut self, nodes: &[u32])
        requires nodes { All (λ u. (1 ≤ u) × (u < length self.old)) nodes.now }
        ensures cleared { All (λ u. value_at self.new u ≡ None) nodes.now }
        ensures others { (u : ℕ) → (value_at self.new u ≡ None) ⊎ (value_at self.new u ≡ value_at self.old u) }
        ensures places { length self.new ≡ length self.old }
    {
        for &node in nodes {
            self.clear(node);
        }
    }

    /// The value of a node, if it has one.
    pub fn get(&self, node: u32) -> Option<u64>
        requires node { (1 ≤ node) × (node < length self.now) }
        ensures value { result ≡ value_at self.now node }
    {
        let word = self.words[node as usize - 1];
        if word == NO_VALUE { None } else { Some(word) }
    }

    /// Sets the value of a node, which is below 2^64 - 1.
    #[inline(always)]
    pub fn set(&mut self, node: u32, value: u64)
        requires node { (1 ≤ node) × (node < length self.old) }
        requires value { value < no_value }
        ensures set { self.new ≡ slice_set self.old node (Some value) }
    {
        let place = node as usize - 1;
        if self.noted.is_none() {
            self.words[place] = value;
            return;
        }
        let word = self.words[place];
        let noted = noted_with(self.noted.take(), word, node);
        self.noted = noted;
        self.words[place] = value;
    }

    /// Removes a node's value.
    fn clear(&mut self, node: u32)
        requires node { (1 ≤ node) × (node < length self.old) }
        ensures cleared { self.new ≡ slice_set self.old node None }
    {
        self.words[node as usize - 1] = NO_VALUE;
    }

    /// The values as words, from node 1 on. 2^64 - 1 means no value.
    pub fn into_words(self) -> Vec<u64>
        ensures words { self ≡ None ∷ map value_of_word result.items }
    {
        self.words
    }
}

impl Known for Tentative {
    ghost values = { λ values. values };

    #[inline(always)]
    fn value(&self, node: u32) -> Option<u64> {
        self.get(node)
    }
}
