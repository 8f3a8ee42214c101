//! The plain search without round robin, in which every place of each word is allowed.
ghost use Rattle.std.specs.Prelude.{◌≡◌, ◌+◌, ◌<◌, ◌≤◌, ◌++◌, map, All, IfSome, false, None};
ghost use Rattle.tag_layout.specs.Layout.{words, word_depth};
ghost use Rattle.tag_search.specs.Added.{AddsSteps};
ghost use Rattle.tag_search.specs.Order.{numbers};
ghost use Rattle.tag_search.specs.Places.{places_of};
ghost use Rattle.tag_search.specs.Search.{IsPass, IsSearch};
ghost use Rattle.tag_search.specs.Tries.{left_to_try, IsMissed, Completes};
ghost use Rattle.tag_search.specs.Visits.{places_in, visit_of, plain_reach, IsPlainSearch};

use crate::pass::{Missed, TURNS, pass_after, retry_keeping};
use crate::port::Port;
use crate::rank::Rank;
use crate::scan::Scan;
use tag_layout::Layout;

/// Returns all places of a word, in increasing order.
#[inline]
pub fn all_places(layout: Layout, word: u32) -> Rank
    requires { word < words layout }
    ensures rank { places_of result ≡ places_in layout word }
    ensures within { All (λ place. place < word_depth layout word) (places_of result) }
    ensures shift { layout.shift ≤ 6 }
{
    Rank::new(0, layout.word_depth(word), true)
}

/// Visits all words in cyclic order from `first`, until a visit wins a tag, after a first try that won nothing.
#[inline(always)]
pub fn search_after<P: Port>(
    port: &mut P,
    layout: Layout,
    first: u32,
    missed: Missed,
) -> Option<u32>
    requires port { P.ready port.old }
    requires layout { P.sizes port.old ≡ layout }
    requires first { first < words layout }
    requires room { P.has_room port.old 1 }
    requires places { All (λ place. place < word_depth layout first) (left_to_try missed) }
    ensures port { P.ready port.new }
    ensures sizes { P.sizes port.new ≡ P.sizes port.old }
    ensures shift { layout.shift ≤ 6 }
    ensures tag { IfSome result (λ tag. tag < layout.depth) }
    ensures search { AddsSteps P.adds port.old port.new
        (Completes (IsMissed first (places_in layout first) missed) (IsPlainSearch layout first result)) }
{
    match pass_after(port, first, missed) {
        Some(place) => Some(layout.tag_at(first, place)),
        None => search_on(port, layout, first),
    }
}

/// Continues the search after a pass over the first word that won nothing.
#[inline(always)]
fn search_on<P: Port>(port: &mut P, layout: Layout, first: u32) -> Option<u32>
    requires port { P.ready port.old }
    requires layout { P.sizes port.old ≡ layout }
    requires first { first < words layout }
    requires room { P.has_room port.old 1 }
    ensures port { P.ready port.new }
    ensures sizes { P.sizes port.new ≡ P.sizes port.old }
    ensures tag { IfSome result (λ tag. tag < layout.depth) }
    ensures search { AddsSteps P.adds port.old port.new
        (Completes (λ seen. IsPass first (places_in layout first) seen None) (IsPlainSearch layout first result)) }
{
    match retry_keeping(port, first, all_places(layout, first), TURNS) {
        Some(place) => Some(layout.tag_at(first, place)),
        None => search_others(port, layout, first),
    }
}

/// Visits the words after the first, and then those before it.
#[inline(never)]
fn search_others<P: Port>(port: &mut P, layout: Layout, first: u32) -> Option<u32>
    requires port { P.ready port.old }
    requires layout { P.sizes port.old ≡ layout }
    requires first { first < words layout }
    requires room { P.has_room port.old 1 }
    ensures port { P.ready port.new }
    ensures sizes { P.sizes port.new ≡ P.sizes port.old }
    ensures tag { IfSome result (λ tag. tag < layout.depth) }
    ensures search { AddsSteps P.adds port.old port.new (λ steps.
        let of = visit_of first (plain_reach layout false 0) in
        IsSearch layout (map of (numbers (first + 1) (words layout)) ++ map of (numbers 0 first)) steps result) }
{
    let scan = Scan::of_words(layout, first);
    match scan.visit_between(port, first + 1, layout.words()) {
        Some(tag) => Some(tag),
        None => scan.visit_between(port, 0, first),
    }
}
