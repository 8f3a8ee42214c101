//! The place of a tag in its word, and its bit.
ghost use Rattle.std.specs.Prelude.{◌≡◌, ℕ, ◌^◌, ◌<◌, IfSome, MatchOption};
ghost use Rattle.tag_layout.specs.Bits.{AllSet, IsFirstClear};
ghost use Rattle.tag_layout.specs.Layout.{place_of, word_depth, words};

use tag_layout::Layout;

/// Returns the place of a tag in its word, 0 to 63. Numbers past the depth have one too.
#[inline]
pub fn place_in_word(layout: Layout, tag: u32) -> u32
    ensures value { result ≡ place_of layout tag }
    ensures width { result < 64 }
{
    tag & ((1 << layout.shift()) - 1)
}

/// Returns the mask with the bit of a tag in its word.
#[inline]
pub fn bit_of(layout: Layout, tag: u32) -> u64
    ensures value { result ≡ 2 ^ place_of layout tag }
    ensures width { place_of layout tag < 64 }
{
    1 << place_in_word(layout, tag)
}

/// Returns the least place of a word whose bit is 0 in these bits. It tests the place that it found, so it need not count
/// the places that the word uses.
#[inline(always)]
pub(crate) fn first_free(layout: Layout, word: u32, bits: u64) -> Option<u32>
    requires { word < words layout }
    ensures free { let used = word_depth layout word in MatchOption result (AllSet bits 0 used) (IsFirstClear bits 0 used) }
    ensures width { IfSome result (λ place. place < 64) }
{
    let shift = layout.shift();
    let place = (!bits).trailing_zeros();
    if place >> shift != 0 {
        return None;
    }
    if (word << shift) + place >= layout.depth() {
        return None;
    }
    Some(place)
}
