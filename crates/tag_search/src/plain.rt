//! The plain words of one caller, without atomics.
ghost use Rattle.std.specs.Prelude.{◌≡◌, ℕ, ◌+◌, ◌^◌, ◌<◌, ◌↔◌, List, [], ◌∷◌, replicate, slice_index, IsTrue, IfOk};
ghost use Rattle.std.specs.Int.{bit_at};
ghost use Rattle.tag_layout.specs.Layout.{words, word_of, place_of, IsWithin};
ghost use Rattle.tag_core.specs.declared.word_step.WordStep.TheVariants.{LookAside, Give, Put};
ghost use Rattle.tag_search.specs.Plain.{plain_words, is_busy_tag, RunsAlone, IsTaken};
ghost use Rattle.tag_search.specs.Pool.{pool_of, set_aside, free_at};
ghost use Rattle.tag_search.specs.Writes.{WritesBits, IsIn, IsTidy, IsAllFree};

use crate::place::bit_of;
use std::alloc::{AllocError, Global};
use std::marker::Model;
use tag_layout::Layout;

/// The words of a map that only one caller uses. A contract sees the layout, each word and each cleared set.
#[derive(Drop)]
pub struct PlainPort {
    pub(crate) layout: Layout,
    /// The words: 1 is taken.
    pub(crate) word: Vec<u64>,
    /// The cleared set of each word: 1 is set aside, that is, given back but still taken in the word.
    pub(crate) cleared: Vec<u64>,
}

impl Model for PlainPort {
    ghost use Rattle.tag_search.specs.Plain.{Plain};
    ghost use Rattle.tag_search.specs.Writes.{IsTidy};

    ghost Value = { Plain };

    ghost view = { λ p. record { layout = p.layout; word = p.word.items; aside = p.cleared.items } };

    ghost invariant = { λ p. IsTidy (record { layout = p.layout; word = p.word.items; aside = p.cleared.items }) };
}

impl PlainPort {
    /// Opens words with all tags free.
    pub fn open(alloc: Global, layout: Layout) -> Result<PlainPort, AllocError>
        ensures layout { IfOk result (λ port. port.layout ≡ layout) }
        ensures words { IfOk result (λ port. port.word ≡ replicate (words layout) 0) }
        ensures aside { IfOk result (λ port. port.aside ≡ replicate (words layout) 0) }
        ensures pool { IfOk result (λ port. IsAllFree (pool_of (plain_words port))) }
    {
        let count = layout.words() as usize;
        let word = vec![in alloc; 0u64; count]?;
        let cleared = vec![in alloc; 0u64; count]?;
        Ok(PlainPort {
            layout,
            word,
            cleared,
        })
    }

    /// Returns whether the tag is taken and not set aside.
    pub fn taken(&self, tag: u32) -> bool
        requires { tag < self.now.layout.depth }
        ensures taken { IsTrue result ↔ IsTaken self.now (word_of self.now.layout tag) (place_of self.now.layout tag) }
        ensures busy { IsTrue result ↔ IsTrue (is_busy_tag self.now tag) }
    {
        let word = self.layout.word_of(tag) as usize;
        let bit = bit_of(self.layout, tag);
        self.word[word] & bit != 0 && self.cleared[word] & bit == 0
    }

    /// Returns the cleared set of a word: 1 is set aside.
    pub fn look_aside(&mut self, word: u32) -> u64
        requires { word < words self.old.layout }
        ensures value { result ≡ slice_index self.old.aside word }
        ensures same { self.new ≡ self.old }
        ensures tidy { IsTidy self.old }
        ensures step { RunsAlone self.old (LookAside word result ∷ []) self.new }
    {
        self.cleared[word as usize]
    }

    /// Sets a taken tag aside, for a later sweep to free.
    pub fn put(&mut self, tag: u32)
        requires tag { tag < self.old.layout.depth }
        requires taken { IsTaken self.old (word_of self.old.layout tag) (place_of self.old.layout tag) }
        ensures layout { self.new.layout ≡ self.old.layout }
        ensures word { self.new.word ≡ self.old.word }
        ensures aside { WritesBits self.old.aside self.new.aside (word_of self.old.layout tag)
            (λ place. place ≡ place_of self.old.layout tag) 1 }
        ensures pool { let l = self.old.layout in
            pool_of (plain_words self.new) ≡ set_aside (word_of l tag) (place_of l tag) (pool_of (plain_words self.old)) }
        ensures step { let word = word_of self.old.layout tag in
            let found = slice_index self.old.aside word in
            RunsAlone self.old (Put word (2 ^ place_of self.old.layout tag) found ∷ []) self.new }
    {
        let word = self.layout.word_of(tag) as usize;
        let bit = bit_of(self.layout, tag);
        self.cleared[word] |= bit;
    }

    /// Frees the taken tags of the mask at once.
    pub fn give(&mut self, word: u32, mask: u64)
        requires word { word < words self.old.layout }
        requires mask { IsWithin self.old.layout word mask }
        requires taken { (place : ℕ) → bit_at mask place ≡ 1 → IsTaken self.old word place }
        ensures layout { self.new.layout ≡ self.old.layout }
        ensures word { WritesBits self.old.word self.new.word word (IsIn mask) 0 }
        ensures aside { self.new.aside ≡ self.old.aside }
        ensures pool { pool_of (plain_words self.new) ≡ free_at word mask (pool_of (plain_words self.old)) }
        ensures step { RunsAlone self.old (Give word mask (slice_index self.old.word word) ∷ []) self.new }
    {
        self.word[word as usize] &= !mask;
    }
}
