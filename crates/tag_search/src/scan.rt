//! The visits of a search over all words, in the order of lib/sbitmap.c.
ghost use Rattle.std.specs.Prelude.{◌≡◌, ℕ, ◌<◌, ◌≤◌, ◌-◌, map, All, IfSome, IfNone, false};
ghost use Rattle.tag_layout.specs.Layout.{words, word_of, word_depth};
ghost use Rattle.tag_search.specs.Order.{numbers};
ghost use Rattle.tag_search.specs.Search.{IsSearch};
ghost use Rattle.tag_search.specs.Added.{AddsSteps, SameRoom};
ghost use Rattle.tag_search.specs.Places.{places_of};
ghost use Rattle.tag_search.specs.Visits.{visit_of, visits, plain_reach, shallow_reach};
ghost use Rattle.tag_search.specs.Scans.{limit_of, reach_of};

use crate::pass::{TURNS, visit};
use crate::place::place_in_word;
use crate::port::Port;
use crate::rank::Rank;
use tag_layout::Layout;

/// Where a search begins, and which places of each word it may take.
#[derive(Clone, Copy)]
pub struct Scan {
    /// The layout of the map.
    pub layout: Layout,
    /// Index of the word that is visited first.
    pub first: u32,
    /// Place at which the visit of the first word begins, 0 to 63. Every other visit begins at 0.
    pub start: u32,
    /// Depth of a shallow search, in tags of the whole map. `None` allows every place of each word.
    pub shallow: Option<u32>,
    /// Whether the places before `start` follow those after it.
    pub wrap: bool,
}

impl Scan {
    /// Returns the scan of a plain search from a hint below the depth, or 0 if there are no tags.
    #[inline]
    pub fn plain(layout: Layout, round_robin: bool, from: u32) -> Scan
        requires { from ≤ layout.depth - 1 }
        ensures layout { result.layout ≡ layout }
        ensures shift { layout.shift ≤ 6 }
        ensures first { (result.first ≡ word_of layout from) × (result.first ≤ words layout) }
        ensures reach { reach_of result ≡ plain_reach layout round_robin from }
    {
        Scan {
            layout,
            first: from >> layout.shift(),
            start: if round_robin {
                place_in_word(layout, from)
            } else {
                0
            },
            shallow: None,
            wrap: !round_robin,
        }
    }

    /// Returns the scan of whole words from `first` on.
    pub fn of_words(layout: Layout, first: u32) -> Scan
        ensures layout { result.layout ≡ layout }
        ensures first { result.first ≡ first }
        ensures reach { reach_of result ≡ plain_reach layout false 0 }
    {
        Scan {
            layout,
            first,
            start: 0,
            shallow: None,
            wrap: true,
        }
    }

    /// Returns the scan of a search of this depth from a hint below the map's depth, or 0 if there are no tags.
    #[inline]
    pub fn shallow(layout: Layout, depth: u32, from: u32) -> Scan
        requires { from ≤ layout.depth - 1 }
        ensures layout { result.layout ≡ layout }
        ensures shift { layout.shift ≤ 6 }
        ensures first { (result.first ≡ word_of layout from) × (result.first ≤ words layout) }
        ensures reach { reach_of result ≡ shallow_reach layout depth from }
    {
        Scan {
            layout,
            first: from >> layout.shift(),
            start: place_in_word(layout, from),
            shallow: Some(depth),
            wrap: true,
        }
    }

    /// Returns the places of a word that may be taken, in order.
    #[inline]
    fn rank(&self, word: u32) -> Rank
        requires { word < words self.now.layout }
        ensures rank { places_of result ≡ (visit_of self.now.first (reach_of self.now) word).rank }
        ensures within { All (λ place. place < word_depth self.now.layout word) (places_of result) }
    {
        let start = if word == self.first { self.start } else { 0 };
        Rank::new(start, self.limit(word), self.wrap)
    }

    /// Returns the number of turns of a word's visit.
    #[inline]
    fn turns(&self, word: u32) -> u32
        ensures value { result ≡ (visit_of self.now.first (reach_of self.now) word).turns }
        ensures some { 1 ≤ result }
    {
        if word == self.first { TURNS } else { 1 }
    }

    /// Returns the number of places of a word that may be taken.
    #[inline]
    fn limit(&self, word: u32) -> u32
        requires { word < words self.now.layout }
        ensures value { result ≡ limit_of self.now.layout self.now.shallow word }
        ensures within { result ≤ word_depth self.now.layout word }
        ensures width { result ≤ 64 }
    {
        let depth = self.layout.word_depth(word);
        match self.shallow {
            None => depth,
            Some(shallow) => self.layout.shallow_limit(word, shallow),
        }
    }

    /// Visits the words `from .. end`, until a visit wins a tag.
    #[inline]
    pub fn visit_between<P: Port>(&self, port: &mut P, from: u32, end: u32) -> Option<u32>
        requires port { P.ready port.old }
        requires layout { P.sizes port.old ≡ self.now.layout }
        requires words { end ≤ words self.now.layout }
        requires room { P.has_room port.old 1 }
        ensures port { P.ready port.new }
        ensures sizes { P.sizes port.new ≡ P.sizes port.old }
        ensures room { IfNone result (SameRoom P.has_room port.old port.new) }
        ensures tag { IfSome result (λ tag. tag < self.now.layout.depth) }
        ensures search { AddsSteps P.adds port.old port.new (λ steps.
            IsSearch self.now.layout (map (visit_of self.now.first (reach_of self.now)) (numbers from end)) steps result) }
    {
        for word in from..end {
            if let Some(place) = visit(port, word, self.rank(word), self.turns(word)) {
                return Some(self.layout.tag_at(word, place));
            }
        }
        None
    }

    /// Visits all words in cyclic order, until a visit wins a tag.
    #[inline]
    pub fn search<P: Port>(&self, port: &mut P) -> Option<u32>
        requires port { P.ready port.old }
        requires layout { P.sizes port.old ≡ self.now.layout }
        requires first { self.now.first ≤ words self.now.layout }
        requires room { P.has_room port.old 1 }
        ensures port { P.ready port.new }
        ensures sizes { P.sizes port.new ≡ P.sizes port.old }
        ensures room { IfNone result (SameRoom P.has_room port.old port.new) }
        ensures tag { IfSome result (λ tag. tag < self.now.layout.depth) }
        ensures search { AddsSteps P.adds port.old port.new (λ steps.
            IsSearch self.now.layout (visits self.now.layout self.now.first (reach_of self.now)) steps result) }
    {
        match self.visit_between(port, self.first, self.layout.words()) {
            Some(tag) => Some(tag),
            None => self.visit_between(port, 0, self.first),
        }
    }
}
