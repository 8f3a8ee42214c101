//! What a caller holds of one word.
ghost use Rattle.std.specs.Prelude.{◌≡◌, ℕ, ◌<◌, ◌↔◌, IsTrue, slice_index_or};
ghost use Rattle.tag_layout.specs.Layout.{words, IsWithin};
ghost use Rattle.tag_core.specs.Callers.{record_of, Holds};
ghost use Rattle.tag_core.specs.Holding.{IsInMask};

use crate::caller::Caller;

impl<R> Caller<R> {
    /// Whether the caller holds each tag of a mask of one word.
    #[inline]
    pub fn holds_all(&self, word: u32, mask: u64) -> bool
        requires word { word < words (record_of self.now).shape.layout }
        requires within { IsWithin (record_of self.now).shape.layout word mask }
        ensures { IsTrue result ↔ ((tag : ℕ) → IsInMask (record_of self.now).shape.layout word mask tag → Holds self.now tag) }
    {
        mask & self.held[word as usize] == mask
    }

    /// The tags of a word that the caller holds, as a mask: 1 is held. It is 0 if the map has no such word. No step.
    #[inline]
    pub fn held_in(&self, word: u32) -> u64
        ensures { result ≡ slice_index_or (record_of self.now).held word 0 }
    {
        match self.held.get(word as usize) {
            Some(mask) => *mask,
            None => 0,
        }
    }
}
