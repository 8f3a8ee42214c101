//! Two marks for each tag: whether it is free, and whether it is set aside.
ghost use Rattle.std.specs.Prelude.{◌≡◌, ℕ, ◌+◌, ◌<◌, not, false, ◌&&◌, ◌||◌, nat_eq, nat_lt, nat_le, IfOk, length, slice_index_or};
ghost use Rattle.tag_layout.specs.Layout.{words, word_of, place_of};
ghost use Rattle.base_tests.specs.Marks.{AreMarks, mark_at, pool_of_marks, free_then, aside_then};
ghost use Rattle.tag_search.specs.Pool.{is_available, is_in, freed_in, taken_from};

use std::alloc::{AllocError, Global};
use tag_layout::Layout;

/// Two marks for each tag: whether it is free, and whether it is set aside.
#[derive(Drop)]
pub(crate) struct Marks {
    pub(crate) free: Vec<bool>,
    pub(crate) aside: Vec<bool>,
}

/// Returns the mark of a place, or false if the place is past the word's depth.
pub(crate) fn mark_at(layout: Layout, marks: &[bool], word: u32, place: u32) -> bool
    requires marks { length marks.now ≡ layout.depth }
    requires word { word < words layout }
    ensures { result ≡ mark_at layout marks.now word place }
{
    place < layout.word_depth(word) && marks[layout.tag_at(word, place) as usize]
}

/// Returns whether a place is free or set aside.
pub(crate) fn is_available(
    layout: Layout,
    free: &[bool],
    aside: &[bool],
    word: u32,
    place: u32,
) -> bool
    requires marks { AreMarks layout free.now aside.now }
    requires word { word < words layout }
    ensures { result ≡ is_available (pool_of_marks layout free.now aside.now) word place }
{
    mark_at(layout, free, word, place) | mark_at(layout, aside, word, place)
}

/// Returns whether the word is one of these.
fn is_in(words: &[u32], word: u32) -> bool
    ensures { result ≡ is_in word words.now }
{
    words.iter().any(|other| word == *other)
}

/// Returns whether a tag is free after the change: it was free, or set aside in a swept word, and it is not taken.
fn is_free_then(was_free: bool, was_aside: bool, is_swept: bool, is_taken: bool) -> bool
    ensures { result ≡ ((was_free || (is_swept && was_aside)) && not is_taken) }
{
    (was_free || (is_swept && was_aside)) && !is_taken
}

/// Returns whether this place is one of the `n` taken places.
fn is_among(word: u32, place: u32, n: u32, of: u32, at: u32) -> bool
    ensures { result ≡ (nat_eq of word && (nat_le place at && nat_lt at (place + n))) }
{
    of == word && (place <= at && u64::from(at) < u64::from(place) + u64::from(n))
}

/// Returns which tags are free after these words are swept and `n` places of a word are taken.
fn free_then(
    alloc: Global,
    layout: Layout,
    free: &[bool],
    aside: &[bool],
    swept: &[u32],
    taken: (u32, u32, u32),
) -> Result<Vec<bool>, AllocError>
    requires marks { AreMarks layout free.now aside.now }
    ensures count { IfOk result (λ marks. length marks.items ≡ layout.depth) }
    ensures marks { IfOk result (λ marks. (tag : ℕ) → tag < layout.depth → slice_index_or marks.items tag false
        ≡ free_then layout free.now aside.now swept.now taken.0 taken.1 taken.2 tag (word_of layout tag) (place_of layout tag)) }
{
    let (word, place, n) = taken;
    let mut marks = Vec::new(alloc);
    for tag in 0..layout.depth() {
        let (of, at) = (layout.word_of(tag), layout.place_of(tag));
        let is_taken = is_among(word, place, n, of, at);
        let is_free = is_free_then(
            free[tag as usize],
            aside[tag as usize],
            is_in(swept, of),
            is_taken,
        );
        marks.push(is_free)?;
    }
    Ok(marks)
}

/// Returns which tags are set aside after these words are swept.
fn aside_then(
    alloc: Global,
    layout: Layout,
    aside: &[bool],
    swept: &[u32],
) -> Result<Vec<bool>, AllocError>
    requires marks { length aside.now ≡ layout.depth }
    ensures count { IfOk result (λ marks. length marks.items ≡ layout.depth) }
    ensures marks { IfOk result (λ marks. (tag : ℕ) → tag < layout.depth → slice_index_or marks.items tag false
        ≡ aside_then aside.now swept.now tag (word_of layout tag)) }
{
    let mut marks = Vec::new(alloc);
    for tag in 0..layout.depth() {
        let is_swept = is_in(swept, layout.word_of(tag));
        marks.push(!is_swept & aside[tag as usize])?;
    }
    Ok(marks)
}

/// Returns the marks after these words are swept and `n` places of a word are taken.
pub(crate) fn marks_then(
    alloc: Global,
    layout: Layout,
    free: &[bool],
    aside: &[bool],
    swept: &[u32],
    taken: (u32, u32, u32),
) -> Result<Marks, AllocError>
    requires marks { AreMarks layout free.now aside.now }
    ensures marks { IfOk result (λ marks. AreMarks layout marks.free.items marks.aside.items) }
    ensures pool { IfOk result (λ marks. pool_of_marks layout marks.free.items marks.aside.items
        ≡ taken_from taken.0 taken.1 taken.2 (freed_in swept.now (pool_of_marks layout free.now aside.now))) }
{
    Ok(Marks {
        free: free_then(alloc, layout, free, aside, swept, taken)?,
        aside: aside_then(alloc, layout, aside, swept)?,
    })
}
