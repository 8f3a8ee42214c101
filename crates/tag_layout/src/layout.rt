//! The layout of a map: from tags to words and places, and back.
ghost use Rattle.std.specs.Prelude.{◌≡◌, ◌≢◌, ◌↔◌, [], ◌∷◌, ⊤, ℕ, ◌+◌, ◌*◌, ◌^◌, ◌<◌, ◌≤◌, IfOk, IfSome, Option, Some, None};
ghost use Rattle.std.specs.Int.{bit_at};
ghost use Rattle.sums.specs.Below.{sum_below};
ghost use Rattle.refusals.specs.Refusals.{RefusesBy};
ghost use Rattle.tag_layout.specs.Layout.{word_bits, words, word_of, place_of, tag_at, word_depth, HasShift, HasShiftByHands, IsDefaultShift, IsShiftByHands};

use std::marker::Model;

/// The most tags of one map.
pub const MAX_DEPTH: u32 = 10_240;

/// The greatest shift: a word has at most 64 bits.
pub const MAX_SHIFT: u32 = 6;

/// Why there is no such layout.
#[derive(Clone, Copy, Debug, PartialEq, Eq)]
pub enum LayoutFault {
    /// More than `MAX_DEPTH` tags.
    DepthTooLarge,
    /// A shift above `MAX_SHIFT`.
    ShiftTooLarge,
}

/// `depth` tags in words of `2^shift` bits each, of which the last may use fewer.
/// Tag `t` is the bit at place `t mod 2^shift` of word `t >> shift`.
#[derive(Clone, Copy, Debug, PartialEq, Eq)]
pub struct Layout {
    /// Number of tags. 0 is legal, and has no words.
    depth: u32,
    /// Binary logarithm of the number of bits in a whole word, 0 to 6.
    shift: u32,
}

impl Model for Layout {
    ghost use Rattle.std.specs.Prelude.{◌≤◌};
    ghost use Rattle.tag_layout.specs.Layout.{Layout as Sizes};
    ghost use Rattle.tag_layout.specs.declared.layout.TheConstants.{MAX_DEPTH, MAX_SHIFT};

    ghost Value = { Sizes };

    ghost view = { λ l. record { depth = l.depth; shift = l.shift } };

    ghost invariant = { λ l. (l.depth ≤ MAX_DEPTH) × (l.shift ≤ MAX_SHIFT) };

    ghost inverse = { λ s. record { depth = s.depth; shift = s.shift } };
}

impl Layout {
    /// Lays out `depth` tags in words of `2^shift` tags, or, without a shift, of the number that `default_shift` gives.
    /// `DepthTooLarge` means more than 10,240 tags, `ShiftTooLarge` a shift above 6.
    pub fn new(depth: u32, shift: Option<u32>) -> Result<Layout, LayoutFault>
        ensures depth { IfOk result (λ l. l.depth ≡ depth) }
        ensures shift { IfOk result (λ l. HasShift depth shift l.shift) }

        ensures refusals { RefusesBy ((depth ≤ MAX_DEPTH, LayoutFault.DepthTooLarge)
            ∷ (IfSome shift (λ s. s ≤ MAX_SHIFT), LayoutFault.ShiftTooLarge) ∷ []) ⊤ result }
    {
        Layout::by_hands(depth, 4, shift)
    }

    /// As `new`, but without a shift the words are of the number that `shift_by_hands` gives.
    pub fn by_hands(depth: u32, hands: u32, shift: Option<u32>) -> Result<Layout, LayoutFault>
        ensures depth { IfOk result (λ l. l.depth ≡ depth) }
        ensures shift { IfOk result (λ l. HasShiftByHands depth hands shift l.shift) }

        ensures refusals { RefusesBy ((depth ≤ MAX_DEPTH, LayoutFault.DepthTooLarge)
            ∷ (IfSome shift (λ s. s ≤ MAX_SHIFT), LayoutFault.ShiftTooLarge) ∷ []) ⊤ result }
    {
        if depth > MAX_DEPTH {
            return Err(LayoutFault::DepthTooLarge);
        }
        let shift = match shift {
            Some(wanted) => wanted,
            None => Layout::shift_by_hands(depth, hands),
        };
        if shift > MAX_SHIFT {
            return Err(LayoutFault::ShiftTooLarge);
        }
        Ok(Layout { depth, shift })
    }

    /// The default shift by the kernel's rule: the greatest one, up to 6, with which the map has at least four whole
    /// words, and 6 below four tags, as `sbitmap_calculate_shift` (lib/sbitmap.c) computes it.
    pub fn default_shift(depth: u32) -> u32
        ensures { IsDefaultShift depth result }
    {
        Layout::shift_by_hands(depth, 4)
    }

    /// The default shift for so many hands: the greatest one, up to 6, with which the map has as many whole words as hands,
    /// and at least four. It is 0 with fewer tags than hands, and 6 below four tags. So threads seldom share a word,
    /// and it is `default_shift` while there are 64 tags for each hand.
    pub fn shift_by_hands(depth: u32, hands: u32) -> u32
        ensures { IsShiftByHands depth hands result }
    {
        if depth < 4 {
            return MAX_SHIFT;
        }
        let tags = (depth / hands.max(4)).max(1);
        tags.ilog2().min(MAX_SHIFT)
    }

    /// Number of tags.
    pub fn depth(self) -> u32
        ensures value { result ≡ self.depth }
        ensures bound { result ≤ MAX_DEPTH }
    {
        self.depth
    }

    /// Binary logarithm of the number of bits in a whole word, 0 to 6.
    pub fn shift(self) -> u32
        ensures value { result ≡ self.shift }
        ensures bound { result ≤ MAX_SHIFT }
    {
        self.shift
    }

    /// Number of words: `map_nr` in lib/sbitmap.c.
    pub fn words(self) -> u32
        ensures value { result ≡ words self }
        ensures filled { sum_below (word_depth self) result ≡ self.depth }
    {
        (self.depth + (1 << self.shift) - 1) >> self.shift
    }

    /// The word in which a tag stands.
    pub fn word_of(self, tag: u32) -> u32
        requires { tag < self.depth }
        ensures value { result ≡ word_of self tag }
        ensures within { result < words self }
    {
        tag >> self.shift
    }

    /// The tag's place in its word: the place of its bit, the lowest first.
    pub fn place_of(self, tag: u32) -> u32
        requires { tag < self.depth }
        ensures value { result ≡ place_of self tag }
        ensures within { result < word_depth self (word_of self tag) }
        ensures bound { result < 64 }
        ensures back { tag_at self (word_of self tag) result ≡ tag }
    {
        tag & ((1 << self.shift) - 1)
    }

    /// The tag at a place of a word.
    pub fn tag_at(self, word: u32, place: u32) -> u32
        requires word { word < words self }
        requires place { place < word_depth self word }
        ensures value { result ≡ tag_at self word place }
        ensures within { result < self.depth }
        ensures back { (word_of self result ≡ word) × (place_of self result ≡ place) }
    {
        (word << self.shift) + place
    }

    /// Number of bits that a word uses: `2^shift`, or fewer in the last word.
    pub fn word_depth(self, word: u32) -> u32
        requires { word < words self }
        ensures value { result ≡ word_depth self word }
        ensures within { (1 ≤ result) × (result ≤ 64) }
    {
        (self.depth - (word << self.shift)).min(1 << self.shift)
    }

    /// The bits that a word uses, as a mask: 1 is usable.
    pub fn usable(self, word: u32) -> u64
        requires { word < words self }
        ensures value { result + 1 ≡ 2 ^ word_depth self word }
        ensures bits { (place : ℕ) → (bit_at result place ≡ 1) ↔ (place < word_depth self word) }
    {
        u64::MAX >> (64 - self.word_depth(word))
    }
}
