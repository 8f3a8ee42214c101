//! The reference search: gets computed by scanning two lists of marks. Their contracts are the definitions of a choice.
ghost use Rattle.std.specs.Prelude.{◌≡◌, ℕ, ◌+◌, ◌<◌, ◌≤◌, ◌↔◌, true, false, All, IfOk, IfSome, MatchOption, length};
ghost use Rattle.std.specs.Int.{bit_at};
ghost use Rattle.tag_layout.specs.Layout.{words, word_depth, word_of};
ghost use Rattle.tag_search.specs.Batch.{batch_words};
ghost use Rattle.tag_search.specs.Choice.{IsFirst, IsBusy, IsAvailable, IsLeastAvailable, HasNoRun, IsChoice, IsBatchChoice};
ghost use Rattle.tag_search.specs.Hints.{reduced};
ghost use Rattle.base_tests.specs.Marks.{AreMarks, mark_at, pool_of_marks};
ghost use Rattle.tag_search.specs.Order.{scan_order};
ghost use Rattle.tag_search.specs.Scans.{limit_of};
ghost use Rattle.tag_search.specs.Visits.{visit_of, visits, plain_visits, shallow_visits};

use super::hints::reduced;
use super::marks::{Marks, is_available, mark_at, marks_then};
use std::alloc::{AllocError, Global};
use tag_layout::Layout;
use tag_search::Hint;

/// The numbers from `start` to `limit` and then, if `wrap` is set, those before `start`.
fn in_order(alloc: Global, start: u32, limit: u32, wrap: bool) -> Result<Vec<u32>, AllocError>
    ensures { IfOk result (λ order. order.items ≡ scan_order start limit wrap) }
{
    let mut order = Vec::new(alloc);
    for number in start..limit {
        order.push(number)?;
    }
    if wrap {
        for number in 0..start.min(limit) {
            order.push(number)?;
        }
    }
    Ok(order)
}

/// Returns the first marked place of the rank.
fn first_marked(layout: Layout, marks: &[bool], word: u32, rank: &[u32]) -> Option<u32>
    requires marks { length marks.now ≡ layout.depth }
    requires word { word < words layout }
    ensures { let mark = mark_at layout marks.now word in
        MatchOption result (All (λ place. mark place ≡ false) rank.now)
        (IsFirst (λ place. mark place ≡ true) (λ place. mark place ≡ false) rank.now) }
{
    for place in rank {
        if mark_at(layout, marks, word, *place) {
            return Some(*place);
        }
    }
    None
}

/// Returns the least place of a word that is free or set aside.
fn least_open(layout: Layout, free: &[bool], aside: &[bool], word: u32) -> Option<u32>
    requires marks { AreMarks layout free.now aside.now }
    requires word { word < words layout }
    ensures { let pool = pool_of_marks layout free.now aside.now in
        MatchOption result ((place : ℕ) → place < word_depth layout word → IsBusy pool word place)
        (IsLeastAvailable pool word (word_depth layout word)) }
{
    for place in 0..layout.word_depth(word) {
        if is_available(layout, free, aside, word, place) {
            return Some(place);
        }
    }
    None
}

/// Returns the least place of a word that is free or set aside, if the word has `n` places from it on.
fn run_in(layout: Layout, free: &[bool], aside: &[bool], word: u32, n: u32) -> Option<u32>
    requires marks { AreMarks layout free.now aside.now }
    requires word { word < words layout }
    requires count { n ≤ 64 }
    ensures run { let pool = pool_of_marks layout free.now aside.now in
        MatchOption result (HasNoRun layout n pool word) (IsLeastAvailable pool word (word_depth layout word)) }
    ensures fits { IfSome result (λ place. place + n ≤ word_depth layout word) }
{
    let Some(place) = least_open(layout, free, aside, word) else {
        return None;
    };
    if place + n <= layout.word_depth(word) {
        Some(place)
    } else {
        None
    }
}

/// Returns the mask of the `n` places from `place` on that are free or set aside. Its lowest bit is `place`.
fn available_bits(
    layout: Layout,
    free: &[bool],
    aside: &[bool],
    word: u32,
    place: u32,
    n: u32,
) -> u64
    requires marks { AreMarks layout free.now aside.now }
    requires word { word < words layout }
    requires within { (place + n ≤ word_depth layout word) × (n ≤ 64) }
    ensures { (k : ℕ) → bit_at result k ≡ 1
        ↔ (k < n) × IsAvailable (pool_of_marks layout free.now aside.now) word (place + k) }
{
    let mut bits = 0;
    for k in 0..n {
        if is_available(layout, free, aside, word, place + k) {
            bits |= 1 << k;
        }
    }
    bits
}

/// Returns the number of places of a word that may be taken.
fn limit_in(layout: Layout, shallow: Option<u32>, word: u32) -> u32
    requires { word < words layout }
    ensures { result ≡ limit_of layout shallow word }
{
    match shallow {
        Some(depth) => layout.shallow_limit(word, depth),
        None => layout.word_depth(word),
    }
}

/// Where a get begins, and which places it may take.
#[derive(Clone, Copy)]
struct Way {
    first: u32,
    start: u32,
    shallow: Option<u32>,
    wrap: bool,
}

/// Returns the places of a word in the order in which a get tries them.
fn rank_of(alloc: Global, layout: Layout, way: Way, word: u32) -> Result<Vec<u32>, AllocError>
    requires { word < words layout }
    ensures { IfOk result (λ rank. rank.items ≡ (visit_of way.first
        (record { start = way.start; limit = limit_of layout way.shallow; wrap = way.wrap }) word).rank) }
{
    let start = if word == way.first { way.start } else { 0 };
    in_order(alloc, start, limit_in(layout, way.shallow, word), way.wrap)
}

/// Returns the answer of a get, and the marks after it.
fn choice(
    alloc: Global,
    layout: Layout,
    free: &[bool],
    aside: &[bool],
    way: Way,
) -> Result<(Option<u32>, Marks), AllocError>
    requires marks { AreMarks layout free.now aside.now }
    ensures marks { IfOk result (λ left. AreMarks layout left.1.free.items left.1.aside.items) }
    ensures choice { IfOk result (λ left. IsChoice layout (pool_of_marks layout free.now aside.now)
        (visits layout way.first (record { start = way.start; limit = limit_of layout way.shallow; wrap = way.wrap }))
        left.0 (pool_of_marks layout left.1.free.items left.1.aside.items)) }
{
    let order = in_order(alloc, way.first, layout.words(), true)?;
    let mut swept = Vec::new(alloc);
    for word in &order {
        let rank = rank_of(alloc, layout, way, *word)?;
        if let Some(place) = first_marked(layout, free, *word, &rank) {
            let marks = marks_then(alloc, layout, free, aside, &swept, (*word, place, 1))?;
            return Ok((Some(layout.tag_at(*word, place)), marks));
        }
        if let Some(place) = first_marked(layout, aside, *word, &rank) {
            swept.insert(0, *word)?;
            let marks = marks_then(alloc, layout, free, aside, &swept, (*word, place, 1))?;
            return Ok((Some(layout.tag_at(*word, place)), marks));
        }
        swept.push(*word)?;
    }
    let marks = marks_then(alloc, layout, free, aside, &swept, (0, 0, 0))?;
    Ok((None, marks))
}

/// Returns the answer of a plain get, and the marks after it.
pub(crate) fn plain_choice(
    alloc: Global,
    layout: Layout,
    free: &[bool],
    aside: &[bool],
    hint: Hint,
) -> Result<(Option<u32>, Marks), AllocError>
    requires marks { AreMarks layout free.now aside.now }
    ensures marks { IfOk result (λ left. AreMarks layout left.1.free.items left.1.aside.items) }
    ensures choice { IfOk result (λ left. IsChoice layout (pool_of_marks layout free.now aside.now)
        (plain_visits layout hint.round_robin (reduced layout.depth hint.at))
        left.0 (pool_of_marks layout left.1.free.items left.1.aside.items)) }
{
    let from = reduced(layout.depth(), hint);
    let bits = 1 << layout.shift();
    let way = Way {
        first: from / bits,
        start: if hint.round_robin { from % bits } else { 0 },
        shallow: None,
        wrap: !hint.round_robin,
    };
    choice(alloc, layout, free, aside, way)
}

/// Returns the answer of a shallow get, and the marks after it.
pub(crate) fn shallow_choice(
    alloc: Global,
    layout: Layout,
    free: &[bool],
    aside: &[bool],
    hint: Hint,
    depth: u32,
) -> Result<(Option<u32>, Marks), AllocError>
    requires marks { AreMarks layout free.now aside.now }
    ensures marks { IfOk result (λ left. AreMarks layout left.1.free.items left.1.aside.items) }
    ensures choice { IfOk result (λ left. IsChoice layout (pool_of_marks layout free.now aside.now)
        (shallow_visits layout depth (reduced layout.depth hint.at))
        left.0 (pool_of_marks layout left.1.free.items left.1.aside.items)) }
{
    let from = reduced(layout.depth(), hint);
    let bits = 1 << layout.shift();
    let way = Way {
        first: from / bits,
        start: from % bits,
        shallow: Some(depth),
        wrap: true,
    };
    choice(alloc, layout, free, aside, way)
}

/// Returns the answer of a batch get, and the marks after it.
pub(crate) fn batch_choice(
    alloc: Global,
    layout: Layout,
    free: &[bool],
    aside: &[bool],
    hint: Hint,
    n: u32,
) -> Result<(Option<(u32, u64)>, Marks), AllocError>
    requires marks { AreMarks layout free.now aside.now }
    requires count { n ≤ 64 }
    ensures marks { IfOk result (λ left. AreMarks layout left.1.free.items left.1.aside.items) }
    ensures choice { IfOk result (λ left. IsBatchChoice layout n (pool_of_marks layout free.now aside.now)
        (batch_words layout (word_of layout (reduced layout.depth hint.at)))
        left.0 (pool_of_marks layout left.1.free.items left.1.aside.items)) }
{
    let first = reduced(layout.depth(), hint) / (1 << layout.shift());
    let order = in_order(alloc, first, layout.words(), true)?;
    let mut swept = Vec::new(alloc);
    for word in &order {
        if let Some(place) = run_in(layout, free, aside, *word, n) {
            let bits = available_bits(layout, free, aside, *word, place, n);
            swept.insert(0, *word)?;
            let marks = marks_then(alloc, layout, free, aside, &swept, (*word, place, n))?;
            return Ok((Some((layout.tag_at(*word, place), bits)), marks));
        }
        swept.push(*word)?;
    }
    let marks = marks_then(alloc, layout, free, aside, &swept, (0, 0, 0))?;
    Ok((None, marks))
}
