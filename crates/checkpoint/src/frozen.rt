//! A network as it was when a checkpoint began.
ghost use Rattle.std.specs.Prelude.{◌≤◌, ◌<◌, ◌^◌, All, length};

use crate::numbers::numbers_of;
use crate::parts::{behind, part_of};
use pages::{ARCS_A_PAGE, Header, PAGE_SIZE, WORDS_A_PAGE, encode_arc_page, encode_numbers};
use roadnet::Network;
use std::alloc::{AllocError, Global};
use std::marker::Model;

/// What a checkpoint keeps of the network that it writes: the words of the arcs as numbers, 4 bytes an arc, and the landmarks. The ends of an arc never
/// change, so they are read from the network as it is when they are written.
#[derive(Drop)]
pub struct Frozen {
    /// The words, in the order of the arcs' numbers: the length, and 2^31 more where the arc is closed.
    pub numbers: Vec<u32>,
    /// The landmarks, in ascending order.
    pub landmarks: Vec<u32>,
    pub ghost fit: { All (λ number. number < 2 ^ 32) numbers.items },
    pub ghost few: { length landmarks.items ≤ 1000 },
}

impl Frozen {
    ghost use Rattle.std.specs.Prelude.{◌≡◌, length, IfOk};
    ghost use Rattle.roadnet.specs.Net.{IsNetwork};
    ghost use Rattle.checkpoint.specs.Frozen.{frozen_net};

    /// What is kept of this network. It takes 4 bytes an arc, and as many a landmark.
    pub fn of(alloc: Global, network: &Network) -> Result<Frozen, AllocError>
        ensures same { IfOk result (λ frozen. frozen_net frozen network.now ≡ network.now) }
        ensures network { IsNetwork network.now }
        ensures whole { IfOk result (λ frozen. length frozen.numbers.items ≡ length network.now.arcs) }
    {
        let numbers = numbers_of(alloc, network.arcs())?;
        let landmarks = Vec::from_slice(alloc, network.landmarks())?;
        Ok(Frozen { numbers, landmarks })
    }
}

/// A network as it was when a checkpoint began: what is kept of it, over the network as it is now.
#[derive(Drop)]
pub struct FrozenNetwork<'a> {
    frozen: &'a Frozen,
    network: &'a Network,
}

impl<'a> Model for FrozenNetwork<'a> {
    ghost use Rattle.roadnet.specs.Net.{Net};
    ghost use Rattle.checkpoint.specs.Frozen.{frozen_net};

    ghost Value = { Net };

    ghost view = { λ f. frozen_net f.frozen.now f.network.now };
}

impl<'a> FrozenNetwork<'a> {
    ghost use Rattle.std.specs.Prelude.{◌≡◌, ◌≤◌, length};
    ghost use Rattle.checkpoint.specs.Frozen.{frozen_net};
    ghost use Rattle.checkpoint.specs.Writing.{words_page, ends_page};

    /// What is kept, over the network as it is now.
    pub fn new(frozen: &'a Frozen, network: &'a Network) -> FrozenNetwork<'a>
        ensures { result ≡ frozen_net frozen.now network.now }
    {
        FrozenNetwork { frozen, network }
    }

    /// The number of arcs.
    pub fn arc_count(&self) -> u32
        ensures { result ≡ length self.now.arcs }
    {
        self.network.arcs().len().min(self.frozen.numbers.len()) as u32
    }

    /// The landmarks, in ascending order.
    pub fn landmarks(&self) -> &[u32]
        ensures value { result.now ≡ self.now.landmarks }
        ensures few { length result.now ≤ 1000 }
    {
        &self.frozen.landmarks
    }

    /// Its `i`-th word page.
    pub fn words_page(&self, i: u64) -> [u8; PAGE_SIZE]
        ensures { result ≡ words_page self.now i }
    {
        let count = self.arc_count() as usize;
        encode_numbers(part_of(&self.frozen.numbers[..count], i, WORDS_A_PAGE))
    }

    /// Its `i`-th end page.
    pub fn ends_page(&self, header: &Header, i: u64) -> [u8; PAGE_SIZE]
        ensures { result ≡ ends_page header.now self.now i }
    {
        let count = self.arc_count() as usize;
        let laid = behind(&self.network.arcs()[..count], header.arcs as usize);
        encode_arc_page(part_of(laid, i, ARCS_A_PAGE))
    }
}
