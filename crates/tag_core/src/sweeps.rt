//! How tags that were set aside become free.
ghost use Rattle.std.specs.Prelude.{◌≡◌, ◌≢◌, ℕ, ◌+◌, ◌<◌, ◌≤◌, IfSome, IfNone};
ghost use Rattle.tag_layout.specs.Layout.{words, word_depth, tag_at};
ghost use Rattle.tag_core.specs.Callers.{layout_of, IsCallerOf, record_of, Adds, AddsTwo};
ghost use Rattle.tag_core.specs.Holding.{HoldsSame, HoldsMore};
ghost use Rattle.tag_core.specs.Keeping.{KeepsLeast};
ghost use Rattle.tag_core.specs.declared.step.Step.TheVariants.{Word};
ghost use Rattle.tag_core.specs.declared.word_step.WordStep.TheVariants.{Swap, Spill};

use crate::caller::Caller;
use crate::kept::Kept;
use crate::map::Map;
use crate::plays::{Keeping, Spilling, Swapping};
use crate::spots::{aside_spot, word_spot};

impl<R> Map<R> {
    /// Frees the tags in a word's cleared set, as `sbitmap_deferred_clear` (lib/sbitmap.c) does: empties the set, and
    /// then clears the bits of its tags in the word. Two steps, `swap` and `fetch_sub`. Returns the mask of the tags
    /// freed: 0, after the first step, if the set was empty.
    pub fn sweep(&self, caller: &mut Caller<R>, word: u32) -> u64
        requires caller { IsCallerOf self.now caller.old }
        requires within { word < words (layout_of self.now) }
        ensures caller { IsCallerOf self.now caller.new }
        ensures none { result ≡ 0 → Adds (Word (Swap word 0)) caller.old caller.new }
        ensures some { result ≢ 0 → (found : ℕ)
            × AddsTwo (Word (Swap word result)) (Word (Spill word result found)) caller.old caller.new }
        ensures kept { HoldsSame caller.old caller.new }
    {
        let table = &self.table.shared;
        let mask = table.swap::<Swapping>(&mut caller.seat, aside_spot(word), 0);
        if mask == 0 {
            return 0;
        }
        // All of it is taken: a difference clears it in one instruction, where an and takes a loop.
        table.fetch_sub::<Spilling>(&mut caller.seat, word_spot(word), mask);
        mask
    }

    /// Takes the tags in a word's cleared set, of which the least stays with the caller, and frees the others: `swap`, and
    /// `fetch_sub` only where there are others. What is kept stands in the caller's list as a step of its own, behind the
    /// swap, which makes it too. `None`, after the swap alone, if the set was empty.
    pub fn keep_least(&self, caller: &mut Caller<R>, word: u32) -> Option<Kept>
        requires caller { IsCallerOf self.now caller.old }
        requires within { word < words (layout_of self.now) }
        requires room { (record_of caller.old).won + 1 ≤ (record_of caller.old).shape.life }
        ensures caller { IsCallerOf self.now caller.new }
        ensures none { IfNone result (Adds (Word (Swap word 0)) caller.old caller.new) }
        ensures unmoved { IfNone result (HoldsSame caller.old caller.new) }
        ensures some { IfSome result (λ kept.
            KeepsLeast (layout_of self.now) word kept.place kept.rest caller.old caller.new) }
        ensures place { IfSome result (λ kept. kept.place < word_depth (layout_of self.now) word) }
        ensures acquired { IfSome result (λ kept. let tag = tag_at (layout_of self.now) word kept.place in
            HoldsMore (λ t. t ≡ tag) caller.old caller.new) }
    {
        let table = &self.table.shared;
        let mask = table.swap::<Keeping>(&mut caller.seat, aside_spot(word), 0);
        if mask == 0 {
            return None;
        }
        let place = mask.trailing_zeros();
        let bit = 1u64 << place;
        let held = caller.held[word as usize] | bit;
        caller.held[word as usize] = held;
        caller.won += 1;
        let rest = mask & !bit;
        if rest != 0 {
            // All of it is taken, as in `sweep`.
            table.fetch_sub::<Spilling>(&mut caller.seat, word_spot(word), rest);
        }
        Some(Kept { place, rest })
    }
}
