//! The port to plain words. No other caller steps between the steps of a call.
ghost use Rattle.std.specs.Prelude.{◌≡◌, ◌≢◌, ℕ, ◌^◌, ◌<◌, ◌↔◌, ⊤, [], ◌∷◌, slice_index, IsTrue, IfOk, IfSome, IfNone, IsOkAnd, MatchBool};
ghost use Rattle.tag_layout.specs.Layout.{words, word_depth, IsWithin};
ghost use Rattle.tag_core.specs.declared.word_step.WordStep.TheVariants.{Look, Claimed};
ghost use Rattle.tag_core.specs.Steps.{without};
ghost use Rattle.tag_search.specs.Added.{AddsSteps};
ghost use Rattle.tag_search.specs.Plain.{RunsAlone};
ghost use Rattle.tag_search.specs.Search.{IsSweep, IsLeastKept};
ghost use Rattle.tag_search.specs.Writes.{WritesBits, IsIn, IsTidy};

use crate::plain::PlainPort;
use crate::port::Port;
use tag_core::Claim;
use tag_layout::Layout;

impl Port for PlainPort {
    ghost use Rattle.tag_search.specs.PlainLaws.{runs_nothing, runs_on};

    ghost sizes = { λ p. p.layout };

    ghost ready = { λ _. Unit {0} };

    ghost has_room = { λ _ _. Unit {0} };

    ghost adds = { RunsAlone };

    ghost adds_none = { runs_nothing };

    ghost adds_more = { runs_on };

    fn layout(&self) -> Layout {
        self.layout
    }

    fn room(&self, _n: u32) -> bool {
        true
    }

    #[inline]
    fn look(&mut self, word: u32) -> u64
        requires word { word < words self.old.layout }
        ensures value { result ≡ slice_index self.old.word word }
        ensures same { self.new ≡ self.old }
        ensures tidy { IsTidy self.old }
        ensures step { RunsAlone self.old (Look word result ∷ []) self.new }
    {
        self.word[word as usize]
    }

    #[inline]
    fn claim(&mut self, word: u32, mask: u64, _asked: u32) -> Claim
        requires word { word < words self.old.layout }
        requires mask { IsWithin self.old.layout word mask }
        ensures layout { self.new.layout ≡ self.old.layout }
        ensures found { result.found ≡ slice_index self.old.word word }
        ensures won { result.won ≡ without mask result.found }
        ensures word { WritesBits self.old.word self.new.word word (IsIn mask) 1 }
        ensures aside { self.new.aside ≡ self.old.aside }
        ensures step { RunsAlone self.old (Claimed word mask result.found ∷ []) self.new }
    {
        let at = word as usize;
        let found = self.word[at];
        self.word[at] = found | mask;
        let won = mask & !found;
        Claim { won, found }
    }

    #[inline]
    fn claim_one(&mut self, word: u32, place: u32) -> Result<(), u64> {
        let claim = self.claim(word, 1 << place, 1);
        if claim.won != 0 {
            Ok(())
        } else {
            Err(claim.found)
        }
    }

    fn sweep(&mut self, word: u32) -> u64
        requires word { word < words self.old.layout }
        ensures layout { self.new.layout ≡ self.old.layout }
        ensures swept { result ≡ slice_index self.old.aside word }
        ensures word { WritesBits self.old.word self.new.word word (IsIn (slice_index self.old.aside word)) 0 }
        ensures aside { WritesBits self.old.aside self.new.aside word (λ _. ⊤) 0 }
        ensures steps { AddsSteps RunsAlone self.old self.new (IsSweep word result) }
    {
        let at = word as usize;
        let mask = self.cleared[at];
        if mask == 0 {
            return 0;
        }
        self.cleared[at] = 0;
        self.word[at] &= !mask;
        mask
    }

    fn sweep_keeping(&mut self, word: u32) -> Option<u32>
        requires word { word < words self.old.layout }
        ensures layout { self.new.layout ≡ self.old.layout }
        ensures place { IfSome result (λ place. place < word_depth self.old.layout word) }
        ensures kept { IfSome result (λ place. AddsSteps RunsAlone self.old self.new (IsLeastKept word place)) }
        ensures none { IfNone result (AddsSteps RunsAlone self.old self.new (IsSweep word 0)) }
    {
        let at = word as usize;
        let mask = self.cleared[at];
        if mask == 0 {
            return None;
        }
        let place = mask.trailing_zeros();
        let rest = mask & !(1u64 << place);
        self.cleared[at] = 0;
        if rest != 0 {
            self.word[at] &= !rest;
        }
        Some(place)
    }
}
