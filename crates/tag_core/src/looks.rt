//! Looks, which change nothing.
ghost use Rattle.std.specs.Prelude.{◌≡◌, ℕ, ◌<◌, ◌≤◌, IsTrue, ◌↔◌};
ghost use Rattle.tag_model.specs.declared.world.TheConstants.{MAX_CALLERS};
ghost use Rattle.std.specs.Int.{bit_at};
ghost use Rattle.tag_layout.specs.Layout.{words, word_of, place_of};
ghost use Rattle.tag_core.specs.Callers.{layout_of, IsCallerOf, record_of, Holds, Adds};
ghost use Rattle.tag_core.specs.Holding.{HoldsSame};
ghost use Rattle.tag_core.specs.declared.step.Step.TheVariants.{Word};
ghost use Rattle.tag_core.specs.declared.word_step.WordStep.TheVariants.{Look, LookAside};

use crate::caller::Caller;
use crate::map::Map;
use crate::plays::{Looking, LookingAside};
use crate::spots::{aside_spot, word_spot};
use tag_layout::Layout;

impl<R> Map<R> {
    /// How the map numbers its tags.
    pub fn layout(&self) -> Layout
        ensures { result ≡ layout_of self.now }
    {
        self.shape.layout
    }

    /// Number of callers of the map, 1 to 64.
    pub fn callers(&self) -> u32
        ensures value { result ≡ self.now.shape.callers }
        ensures within { (1 ≤ result) × (result ≤ MAX_CALLERS) }
    {
        self.shape.callers
    }

    /// Returns a word: a bit is 1 if its tag is taken. All tags of the word that the caller holds are found taken. One
    /// step, a load.
    pub fn look(&self, caller: &mut Caller<R>, word: u32) -> u64
        requires caller { IsCallerOf self.now caller.old }
        requires within { word < words (layout_of self.now) }
        ensures caller { IsCallerOf self.now caller.new }
        ensures step { Adds (Word (Look word result)) caller.old caller.new }
        ensures kept { HoldsSame caller.old caller.new }
        ensures held { (tag : ℕ) → Holds caller.old tag → word_of (layout_of self.now) tag ≡ word
            → bit_at result (place_of (layout_of self.now) tag) ≡ 1 }
    {
        let table = &self.table.shared;
        table.load::<Looking>(&mut caller.seat, word_spot(word))
    }

    /// Returns a word's cleared set: a bit is 1 if its tag is set aside. No tag that the caller holds is found there.
    /// One step, a load.
    pub fn look_aside(&self, caller: &mut Caller<R>, word: u32) -> u64
        requires caller { IsCallerOf self.now caller.old }
        requires within { word < words (layout_of self.now) }
        ensures caller { IsCallerOf self.now caller.new }
        ensures step { Adds (Word (LookAside word result)) caller.old caller.new }
        ensures kept { HoldsSame caller.old caller.new }
        ensures held { (tag : ℕ) → Holds caller.old tag → word_of (layout_of self.now) tag ≡ word
            → bit_at result (place_of (layout_of self.now) tag) ≡ 0 }
    {
        let table = &self.table.shared;
        table.load::<LookingAside>(&mut caller.seat, aside_spot(word))
    }

    /// Loads a word without a caller. The load is in no list of steps, so no clause says what it finds.
    pub fn peek(&self, word: u32) -> u64
        requires { word < words (layout_of self.now) }
    {
        self.table.shared.peek(word_spot(word))
    }

    /// Loads a word's cleared set without a caller. The load is in no list of steps, so no clause says what it finds.
    pub fn peek_aside(&self, word: u32) -> u64
        requires { word < words (layout_of self.now) }
    {
        self.table.shared.peek(aside_spot(word))
    }
}

impl<R> Caller<R> {
    /// Returns whether the caller holds the tag. No step.
    pub fn holds(&self, tag: u32) -> bool
        requires { tag < (record_of self.now).shape.layout.depth }
        ensures { IsTrue result ↔ Holds self.now tag }
    {
        let mask = self.held[self.layout.word_of(tag) as usize];
        mask >> self.layout.place_of(tag) & 1 == 1
    }
}
