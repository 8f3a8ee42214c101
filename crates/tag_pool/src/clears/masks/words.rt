//! The tags of a mask, word by word: tested and freed.
ghost use Rattle.std.specs.Prelude.{◌≡◌, ◌≢◌, ℕ, ◌+◌, ◌*◌, ◌<◌, ◌≤◌, ◌↔◌, length, count_ones, All, IsTrue};
ghost use Rattle.std.specs.Int.{bit_at};
ghost use Rattle.tag_layout.specs.Layout.{words, word_bits, word_of, tag_at, IsWithin};
ghost use Rattle.tag_core.specs.Callers.{IsCallerOf, record_of, layout_of as layout_of_map, Holds as HoldsTag};
ghost use Rattle.tag_pool.specs.Runs.{GivesAll};
ghost use Rattle.tag_pool.specs.Masks.{tags_in, mask_bit, words_over, IsLastIn};

use tag_core::{Caller, Map};
use tag_layout::Layout;

/// The bits of a mask whose tags are in this word, at the places of the word.
#[inline]
fn part_in(layout: Layout, first: u32, mask: u64, word: u32) -> u64
    requires first { first < layout.depth }
    requires word { (word_of layout first ≤ word) × (word < words layout) }
    requires near { word * word_bits layout < first + 64 }
    requires tags { (tag : ℕ) → layout.depth ≤ tag → mask_bit first mask tag ≢ 1 }
    ensures within { IsWithin layout word result }
    ensures bits { (place : ℕ) → place < word_bits layout → bit_at result place ≡ mask_bit first mask (tag_at layout word place) }
{
    let start = layout.tag_at(word, 0);
    let moved = if start < first {
        mask << layout.place_of(first)
    } else {
        mask >> (start - first)
    };
    moved & layout.usable(word)
}

/// A mask whose tags are all in one word, moved to their places in that word.
#[inline]
fn placed(layout: Layout, first: u32, mask: u64, last: u32) -> u64
    requires first { first < layout.depth }
    requires last { IsLastIn first mask last × (last < layout.depth) }
    requires one_word { word_of layout last ≡ word_of layout first }
    ensures within { IsWithin layout (word_of layout first) result }
    ensures bits { (place : ℕ) → place < word_bits layout
        → bit_at result place ≡ mask_bit first mask (tag_at layout (word_of layout first) place) }
{
    let placed = mask << layout.place_of(first);
    placed
}

/// Returns whether the caller holds each tag of a mask, by one test for each word. Tags of several words are tested out
/// of line, so that a call for those of one word is short.
#[inline]
pub(crate) fn are_held<R>(
    map: &Map<R>,
    caller: &Caller<R>,
    first: u32,
    mask: u64,
    last: u32,
) -> bool
    requires caller { IsCallerOf map.now caller.now }
    requires first { first < (layout_of_map map.now).depth }
    requires last { IsLastIn first mask last × (last < (layout_of_map map.now).depth) }
    ensures { IsTrue result ↔ All (HoldsTag caller.now) (tags_in first mask) }
{
    let layout = map.layout();
    let word = layout.word_of(first);
    if layout.word_of(last) != word {
        return are_held_across(map, caller, first, mask, last);
    }
    caller.holds_all(word, placed(layout, first, mask, last))
}

/// Frees the held tags of a mask by one step for each word that has any of them.
#[inline]
pub(crate) fn give_mask<R>(map: &Map<R>, caller: &mut Caller<R>, first: u32, mask: u64, last: u32)
    requires caller { IsCallerOf map.now caller.old }
    requires last { IsLastIn first mask last }
    requires held { All (HoldsTag caller.old) (tags_in first mask) }
    ensures caller { IsCallerOf map.now caller.new }
    ensures gives { GivesAll (layout_of_map map.now) (tags_in first mask) caller.old caller.new }
    ensures back { (record_of caller.new).back ≡ (record_of caller.old).back + count_ones mask }
    ensures bound { length (record_of caller.new).steps
        ≤ words_over (layout_of_map map.now) first (tags_in first mask) + length (record_of caller.old).steps }
{
    let layout = map.layout();
    let word = layout.word_of(first);
    if layout.word_of(last) != word {
        return give_mask_across(map, caller, first, mask, last);
    }
    map.give(caller, word, placed(layout, first, mask, last));
}

/// Like `are_held`, for a mask whose tags may be in several words: by one test for each word.
#[inline(never)]
fn are_held_across<R>(map: &Map<R>, caller: &Caller<R>, first: u32, mask: u64, last: u32) -> bool
    requires caller { IsCallerOf map.now caller.now }
    requires first { first < (layout_of_map map.now).depth }
    requires last { IsLastIn first mask last × (last < (layout_of_map map.now).depth) }
    ensures { IsTrue result ↔ All (HoldsTag caller.now) (tags_in first mask) }
{
    let layout = map.layout();
    let from = layout.word_of(first);
    let to = layout.word_of(last);
    for word in from..to + 1 {
        if !caller.holds_all(word, part_in(layout, first, mask, word)) {
            return false;
        }
    }
    true
}

/// Like `give_mask`, for a mask whose tags may be in several words.
#[inline(never)]
fn give_mask_across<R>(map: &Map<R>, caller: &mut Caller<R>, first: u32, mask: u64, last: u32)
    requires caller { IsCallerOf map.now caller.old }
    requires last { IsLastIn first mask last }
    requires held { All (HoldsTag caller.old) (tags_in first mask) }
    ensures caller { IsCallerOf map.now caller.new }
    ensures gives { GivesAll (layout_of_map map.now) (tags_in first mask) caller.old caller.new }
    ensures back { (record_of caller.new).back ≡ (record_of caller.old).back + count_ones mask }
    ensures bound { length (record_of caller.new).steps
        ≤ words_over (layout_of_map map.now) first (tags_in first mask) + length (record_of caller.old).steps }
{
    let layout = map.layout();
    let from = layout.word_of(first);
    let to = layout.word_of(last);
    for word in from..to + 1 {
        let here = part_in(layout, first, mask, word);
        if here != 0 {
            map.give(caller, word, here);
        }
    }
}
