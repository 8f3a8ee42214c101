//! Masks of tags: those of one word, a bit each.
ghost use Rattle.std.specs.Prelude.{◌≡◌, ℕ, ◌^◌, ◌<◌, ◌≤◌, ◌↔◌, IsTrue};
ghost use Rattle.tag_layout.specs.Layout.{words, word_of, place_of, IsWithin};
ghost use Rattle.tag_model.specs.Event.{is_in_mask};

use std::ops::Range;
use tag_layout::Layout;

/// Whether there is such a word, and it uses all places of the mask.
pub(crate) fn is_mask_of(layout: Layout, word: u32, mask: u64) -> bool
    ensures { IsTrue result ↔ ((word < words layout) × IsWithin layout word mask) }
{
    word < layout.words() && mask <= layout.usable(word)
}

/// The tags of a word.
pub(crate) fn tags_of(layout: Layout, word: u32) -> Range<u32>
    requires { word < words layout }
    ensures bound { (result.start ≤ result.end) × (result.end ≤ layout.depth) }
    ensures tags { (tag : ℕ) → tag < layout.depth → word_of layout tag ≡ word → (result.start ≤ tag) × (tag < result.end) }
{
    let first = layout.tag_at(word, 0);
    first..first + layout.word_depth(word)
}

/// The tag's bit in its word.
pub(crate) fn mask_of(layout: Layout, tag: u32) -> u64
    requires { tag < layout.depth }
    ensures { result ≡ 2 ^ place_of layout tag }
{
    1 << layout.place_of(tag)
}

/// Whether the tag's bit in the mask of this word is 1.
pub(crate) fn is_in_mask(layout: Layout, word: u32, mask: u64, tag: u32) -> bool
    requires { tag < layout.depth }
    ensures { result ≡ is_in_mask layout word mask tag }
{
    layout.word_of(tag) == word && (mask >> layout.place_of(tag)) & 1 == 1
}
