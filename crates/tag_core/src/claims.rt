//! Claims: how tags are won.
ghost use Rattle.std.specs.Prelude.{◌≡◌, ℕ, ◌+◌, ◌<◌, ◌≤◌, ◌↔◌, count_ones, IfOk, IfErr, IsErr, OnErr, IsTrue};
ghost use Rattle.std.specs.Int.{bit_at};
ghost use Rattle.tag_layout.specs.Layout.{words, word_depth, word_of, place_of, tag_at, IsWithin};
ghost use Rattle.tag_core.specs.Steps.{without};
ghost use Rattle.tag_core.specs.Callers.{layout_of, IsCallerOf, record_of, Holds, Adds};
ghost use Rattle.tag_core.specs.Claims.{ClaimsPlace};
ghost use Rattle.tag_core.specs.Holding.{IsInMask, HoldsMore, HoldsSame};
ghost use Rattle.tag_core.specs.declared.step.Step.TheVariants.{Word};
ghost use Rattle.tag_core.specs.declared.word_step.WordStep.TheVariants.{Claimed};

use crate::caller::Caller;
use crate::map::Map;
use crate::plays::Claiming;
use crate::spots::word_spot;

/// What one claim won.
#[derive(Clone, Copy, Debug, PartialEq, Eq)]
pub struct Claim {
    /// The bits of the mask that were 0, whose tags the caller now holds: 1 is won.
    pub won: u64,
    /// The word just before the step: 1 is taken.
    pub found: u64,
}

/// The tags asked for could exceed the caller's life. No step was made.
#[derive(Clone, Copy, Debug, PartialEq, Eq)]
pub struct Spent;

impl<R> Map<R> {
    /// Sets the bits of the mask in a word, and wins the tags whose bits were 0. One step, `fetch_or`. `Spent`: the
    /// mask has more bits than the caller may still win within its life; nothing changes then.
    pub fn claim(&self, caller: &mut Caller<R>, word: u32, mask: u64) -> Result<Claim, Spent>
        requires caller { IsCallerOf self.now caller.old }
        requires within { (word < words (layout_of self.now)) × IsWithin (layout_of self.now) word mask }
        ensures caller { IsCallerOf self.now caller.new }
        ensures held { IfOk result (λ c. (tag : ℕ) → Holds caller.old tag → word_of (layout_of self.now) tag ≡ word
            → bit_at c.found (place_of (layout_of self.now) tag) ≡ 1) }
        ensures won { IfOk result (λ c. c.won ≡ without mask c.found) }
        ensures acquired { IfOk result (λ c. HoldsMore (IsInMask (layout_of self.now) word c.won) caller.old caller.new) }
        ensures step { IfOk result (λ c. Adds (Word (Claimed word mask c.found)) caller.old caller.new) }

        // No step is made.
        ensures spent { IsErr result ↔ ((record_of caller.old).shape.life < (record_of caller.old).won + count_ones mask) }
        ensures unchanged { OnErr result (caller.new ≡ caller.old) }
    {
        let asked = mask.count_ones();
        if !caller.room(asked) {
            return Err(Spent);
        }
        Ok(self.claim_counted(caller, word, mask, asked))
    }

    /// As `claim`, with a mask that has `asked` bits, for which there is room in the caller's life: it counts no bits if
    /// all are won.
    #[inline(always)]
    pub fn claim_counted(&self, caller: &mut Caller<R>, word: u32, mask: u64, asked: u32) -> Claim
        requires caller { IsCallerOf self.now caller.old }
        requires within { (word < words (layout_of self.now)) × IsWithin (layout_of self.now) word mask }
        requires asked { asked ≡ count_ones mask }
        requires room { (record_of caller.old).won + asked ≤ (record_of caller.old).shape.life }
        ensures caller { IsCallerOf self.now caller.new }
        ensures held { (tag : ℕ) → Holds caller.old tag → word_of (layout_of self.now) tag ≡ word
            → bit_at result.found (place_of (layout_of self.now) tag) ≡ 1 }
        ensures won { result.won ≡ without mask result.found }
        ensures acquired { HoldsMore (IsInMask (layout_of self.now) word result.won) caller.old caller.new }
        ensures step { Adds (Word (Claimed word mask result.found)) caller.old caller.new }
    {
        let table = &self.table.shared;
        let found = table.fetch_or::<Claiming>(&mut caller.seat, word_spot(word), mask);
        let won = mask & !found;
        let held = caller.held[word as usize] | won;
        caller.held[word as usize] = held;
        caller.won += count_part(won, mask, asked) as u64;
        Claim { won, found }
    }

    /// Claims one place, for which there is room in the caller's life. `Ok`: the place was clear, and the caller now holds
    /// its tag. `Err`: it was taken; returns the word as the claim found it. One step, `fetch_or`.
    #[inline(always)]
    pub fn claim_one(&self, caller: &mut Caller<R>, word: u32, place: u32) -> Result<(), u64>
        requires caller { IsCallerOf self.now caller.old }
        requires within { (word < words (layout_of self.now)) × (place < word_depth (layout_of self.now) word) }
        requires room { (record_of caller.old).won + 1 ≤ (record_of caller.old).shape.life }
        ensures caller { IsCallerOf self.now caller.new }
        ensures won { IfOk result (λ _. (found : ℕ) × (bit_at found place ≡ 0)
            × ClaimsPlace (layout_of self.now) word place found caller.old caller.new) }
        ensures acquired { IfOk result (λ _.
            HoldsMore (λ t. t ≡ tag_at (layout_of self.now) word place) caller.old caller.new) }
        ensures lost { IfErr result (λ found. (bit_at found place ≡ 1)
            × ClaimsPlace (layout_of self.now) word place found caller.old caller.new) }
        ensures kept { OnErr result (HoldsSame caller.old caller.new) }
    {
        let table = &self.table.shared;
        let bit = 1u64 << place;
        let found = table.fetch_or::<Claiming>(&mut caller.seat, word_spot(word), bit);
        if found & bit != 0 {
            return Err(found);
        }
        let held = caller.held[word as usize] | bit;
        caller.held[word as usize] = held;
        caller.won += 1;
        Ok(())
    }
}

/// Returns the number of bits of a part of a mask that has `all` bits. Those of the whole mask are not counted again.
#[inline(always)]
fn count_part(part: u64, mask: u64, all: u32) -> u32
    requires { all ≡ count_ones mask }
    ensures { result ≡ count_ones part }
{
    if part == mask { all } else { part.count_ones() }
}

impl<R> Caller<R> {
    /// Returns whether the caller may win this many more tags within its life. No step.
    pub fn room(&self, tags: u32) -> bool
        ensures { IsTrue result ↔ ((record_of self.now).won + tags ≤ (record_of self.now).shape.life) }
    {
        tags as u64 <= self.life - self.won
    }
}
