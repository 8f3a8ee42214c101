//! The search for several adjacent tags in one word, as in `__sbitmap_queue_get_batch` of lib/sbitmap.c.
ghost use Rattle.std.specs.Prelude.{◌≡◌, ◌≢◌, ℕ, ◌+◌, ◌*◌, ◌/◌, ◌<◌, ◌≤◌, ◌^◌, [], ◌∷◌, IfOk, IfErr, IfSome, IfNone, count_ones};
ghost use Rattle.tag_core.specs.Steps.{without};
ghost use Rattle.tag_core.specs.declared.word_step.WordStep.TheVariants.{Claimed};
ghost use Rattle.tag_layout.specs.Layout.{words, word_depth};
ghost use Rattle.tag_search.specs.Order.{left_of_scan};
ghost use Rattle.tag_search.specs.Batch.{batch_words, run_mask, run_won, IsSweptLook, IsBatchVisit, IsBatchSearch};
ghost use Rattle.tag_search.specs.Added.{AddsSteps, SameRoom};

use crate::port::Port;
use tag_layout::{Layout, first_clear};

/// Returns the mask of `n` bits from a place on.
#[inline]
fn run_of(n: u32, place: u32) -> u64
    requires some { 1 ≤ n }
    requires fits { place + n ≤ 64 }
    ensures value { result ≡ run_mask n place }
    ensures ones { count_ones result ≡ n }
{
    (u64::MAX >> (64 - n)) << place
}

/// Claims `n` places from `place` on. Returns the mask of those won, whose lowest bit is `place`, or `None` if none was
/// free.
#[inline]
fn claim_run<P: Port>(port: &mut P, word: u32, place: u32, n: u32) -> Option<u64>
    requires port { P.ready port.old }
    requires word { word < words (P.sizes port.old) }
    requires room { P.has_room port.old n }
    requires some { 1 ≤ n }
    requires fits { place + n ≤ word_depth (P.sizes port.old) word }
    requires width { place + n ≤ 64 }
    ensures port { P.ready port.new }
    ensures sizes { P.sizes port.new ≡ P.sizes port.old }
    ensures won { IfSome result (λ bits. (found : ℕ) × (without (run_mask n place) found ≢ 0) × (bits ≡ run_won n place found)
        × P.adds port.old (Claimed word (run_mask n place) found ∷ []) port.new) }
    ensures lost { IfNone result ((found : ℕ) × (without (run_mask n place) found ≡ 0) × SameRoom P.has_room port.old port.new
        × P.adds port.old (Claimed word (run_mask n place) found ∷ []) port.new) }
{
    let claim = port.claim(word, run_of(n, place), n);
    if claim.won == 0 {
        return None;
    }
    Some(claim.won >> place)
}

/// Frees what is set aside in the word, and then loads it.
#[inline]
fn sweep_and_look<P: Port>(port: &mut P, word: u32) -> u64
    requires port { P.ready port.old }
    requires word { word < words (P.sizes port.old) }
    ensures port { P.ready port.new }
    ensures sizes { P.sizes port.new ≡ P.sizes port.old }
    ensures room { SameRoom P.has_room port.old port.new }
    ensures steps { AddsSteps P.adds port.old port.new (IsSweptLook word result) }
{
    port.sweep(word);
    port.look(word)
}

/// Sweeps and loads the word, and claims `n` places from its first clear one on, if the word has that many.
#[inline]
fn visit_for_run<P: Port>(port: &mut P, layout: Layout, word: u32, n: u32) -> Option<(u32, u64)>
    requires port { P.ready port.old }
    requires sizes { P.sizes port.old ≡ layout }
    requires word { word < words layout }
    requires room { P.has_room port.old n }
    requires some { (1 ≤ n) × (n ≤ 64) }
    ensures port { P.ready port.new }
    ensures sizes { P.sizes port.new ≡ P.sizes port.old }
    ensures room { IfNone result (SameRoom P.has_room port.old port.new) }
    ensures place { IfSome result (λ won. won.0 + n ≤ word_depth layout word) }
    ensures visit { AddsSteps P.adds port.old port.new (λ steps. IsBatchVisit word (word_depth layout word) n steps result) }
{
    let found = sweep_and_look(port, word);
    let depth = layout.word_depth(word);
    let place = first_clear(found, 0, depth)?;
    if place + n > depth {
        return None;
    }
    let bits = claim_run(port, word, place, n)?;
    Some((place, bits))
}

/// Returns the word that comes after `visited` others of `count` words, in cyclic order from `first`.
#[inline]
fn word_after(count: u32, first: u32, visited: u32) -> u32
    requires first { first ≤ count }
    requires more { visited < count }
    ensures word { result < count }
    ensures order { left_of_scan count first visited ≡ result ∷ left_of_scan count first (visited + 1) }
{
    let behind = count - first;
    if visited < behind {
        first + visited
    } else {
        visited - behind
    }
}

/// Visits all words in cyclic order from `first`, until a claim wins. It is one loop, so that a visit is compiled once.
#[inline]
pub fn search_run<P: Port>(port: &mut P, layout: Layout, n: u32, first: u32) -> Option<(u32, u64)>
    requires port { P.ready port.old }
    requires sizes { P.sizes port.old ≡ layout }
    requires first { first ≤ words layout }
    requires room { P.has_room port.old n }
    requires some { (1 ≤ n) × (n ≤ 64) }
    ensures port { P.ready port.new }
    ensures sizes { P.sizes port.new ≡ P.sizes port.old }
    ensures tags { IfSome result (λ won. won.0 + n ≤ layout.depth) }
    ensures search { AddsSteps P.adds port.old port.new (λ steps. IsBatchSearch layout n (batch_words layout first) steps result) }
{
    let count = layout.words();
    for visited in 0..count {
        let word = word_after(count, first, visited);
        if let Some((place, bits)) = visit_for_run(port, layout, word, n) {
            return Some((layout.tag_at(word, place), bits));
        }
    }
    None
}
