//! The part of a pool that all its hands share.
ghost use Rattle.std.specs.Prelude.{◌≡◌, ◌≤◌, ◌++◌, ℕ, length, List, [], All, IfSome, IfNone, IfErr, vec_len, vec_capacity};
ghost use Rattle.tag_layout.specs.declared.layout.TheConstants.{MAX_DEPTH};
ghost use Rattle.tag_pool.specs.declared.hand.Hand.{Hand};
ghost use Rattle.tag_pool.specs.Hands.{IsHandOf, hands_of, reserved_of, total_of};
ghost use Rattle.tag_c.specs.Pools.{Gathers, HasHands};

use crate::cached::CacheTerms;
use crate::hand_cells::{HandCell, empty_cell, put_into, take_from};
use tag_pool::{Hand, Pool, PoolGatherFault, Totals};

/// The tags of a pool, and the cells into which its hands leave.
pub struct PoolState {
    pub tags: Pool<u64>,
    /// Tags in both sets, at most `MAX_DEPTH`.
    pub total: u32,
    /// How many of them are reserved, from the first on.
    pub reserved: u32,
    /// On which terms the hands keep tags.
    pub cache: CacheTerms,
    /// As many as the tags have hands, so that each hand that leaves finds an empty one.
    pub cells: Vec<HandCell>,
    ghost total_is: { (total_of tags ≡ total) × (total ≤ MAX_DEPTH) },
    ghost reserved_is: { reserved_of tags ≡ reserved },
    ghost own: { All (IsHandOf tags) cells.items },
    ghost enough: { vec_len cells ≡ hands_of tags },
}

impl PoolState {
    /// Takes a hand that left out of its cell, if there is one.
    #[tactic(auto, using(crate::proofs::Owners::one_owner))]
    pub(crate) fn take_hand(&self) -> Option<Hand<u64>>
        ensures { IfSome result (IsHandOf self.now.tags) }
    {
        for i in 0..self.cells.len() {
            if let Some(hand) = take_from(&self.cells[self.cells.len() - 1 - i]) {
                return Some(hand);
            }
        }
        None
    }

    /// Puts a hand of these tags into the first free cell, or returns it if none is free.
    pub(crate) fn rest(&self, hand: Hand<u64>) -> Result<(), Hand<u64>>
        requires { IsHandOf self.now.tags hand }
        ensures { IfErr result (λ back. back ≡ hand) }
    {
        let mut hand = hand;
        for i in 0..self.cells.len() {
            hand = match put_into(&self.cells[i], hand) {
                Ok(()) => return Ok(()),
                Err(back) => back,
            };
        }
        Err(hand)
    }

    /// Shares tags that have these hands, with an empty cell for each.
    // In line, this and `part` make a resize, which moves whole pools, ten times as long.
    #[inline(never)]
    pub(crate) fn with_cells(
        tags: Pool<u64>,
        total: u32,
        reserved: u32,
        cache: CacheTerms,
        hands: &[Hand<u64>],
        cells: Vec<HandCell>,
    ) -> PoolState
        requires sizes { (total_of tags ≡ total) × (total ≤ MAX_DEPTH) × (reserved_of tags ≡ reserved) }
        requires own { All (IsHandOf tags) hands.now }
        requires all { length hands.now ≡ hands_of tags }
        requires room { (cells.items ≡ []) × (length hands.now ≤ vec_capacity cells) }
        ensures tags { result.tags ≡ tags }
        ensures cache { result.cache ≡ cache }
    {
        let mut cells = cells;
        for hand in hands {
            cells.push_reserved(empty_cell(hand));
        }
        PoolState {
            tags,
            total,
            reserved,
            cache,
            cells,
        }
    }

    /// Moves the hands that left from their cells to the end of a list of hands. The list has room for all hands of the
    /// tags.
    fn collect(&self, spare: Vec<Hand<u64>>) -> Vec<Hand<u64>>
        requires { All (IsHandOf self.now.tags) spare.items }
        ensures own { All (IsHandOf self.now.tags) result.items }
        ensures kept { (left : List (Hand ℕ)) × (result.items ≡ spare.items ++ left) }
    {
        let mut hands = spare;
        for cell in &self.cells {
            // A full list has all hands, so no other cell has one.
            if hands.len() == hands.capacity() {
                break;
            }
            if let Some(hand) = take_from(cell) {
                hands.push_reserved(hand);
            }
        }
        hands
    }

    /// Returns the tags, their spare hands with those that left, and the cells.
    #[inline(never)]
    pub(crate) fn part(self, spare: Vec<Hand<u64>>) -> (Pool<u64>, Vec<Hand<u64>>, Vec<HandCell>)
        requires { All (IsHandOf self.tags) spare.items }
        ensures tags { result.0 ≡ self.tags }
        ensures own { All (IsHandOf self.tags) result.1.items }
        ensures kept { (left : List (Hand ℕ)) × (result.1.items ≡ spare.items ++ left) }
        ensures cells { result.2 ≡ self.cells }
    {
        let hands = self.collect(spare);
        let PoolState {
            tags,
            total: _,
            reserved: _,
            cache: _,
            cells,
        } = self;
        (tags, hands, cells)
    }

    /// Ends the tags with the spare hands and those that left. `None` where a hand is missing.
    pub(crate) fn gather(self, spare: Vec<Hand<u64>>) -> Option<Totals>
        requires { All (IsHandOf self.tags) spare.items }
        ensures some { IfSome result (Gathers self.tags spare.items) }
        ensures none { IfNone result (¬ (HasHands self.tags spare.items)) }
    {
        let (tags, hands, _) = self.part(spare);
        match Pool::gather(tags, hands) {
            Ok(totals) => Some(totals),
            Err(fault) => {
                let PoolGatherFault { pool: tags, .. } = fault;
                tags.discard();
                None
            }
        }
    }
}

impl Drop for PoolState {
    fn drop(self) {
        let PoolState {
            tags,
            total: _,
            reserved: _,
            cache: _,
            cells,
        } = self;
        tags.discard();
        drop(cells);
    }
}
