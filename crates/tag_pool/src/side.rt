//! What a hand has in one of the two sets, and the calls that work there, whichever set it is.
ghost use Rattle.std.specs.Prelude.{◌≡◌};
ghost use Rattle.tag_core.specs.Callers.{record_of};

use crate::fault::TagFault;
use step_ledger::Numbered;
use tag_core::{Caller, Map, Spent};
use tag_search::{Found, Hint, on_map};

/// A hand's caller in the map of one set, and where its gets start there.
#[derive(Drop)]
pub struct Side<R> {
    /// Where its next get starts.
    pub(crate) hint: Hint,
    /// The number of the hand, from 0.
    pub(crate) number: u32,
    /// Must be the last field: it ends with padding.
    pub(crate) caller: Caller<R>,
    ghost numbers: { (record_of caller).number ≡ number },
}

impl<R> Side<R> {
    ghost use Rattle.std.specs.Prelude.{◌≡◌};
    ghost use Rattle.tag_pool.specs.Sides.{caller_of, hint_of};

    /// Returns the side of this caller, with this hint.
    pub(crate) fn new(caller: Caller<R>, hint: Hint) -> Side<R>
        ensures caller { caller_of result ≡ caller }
        ensures hint { hint_of result ≡ hint }
    {
        let number = caller.number();
        Side {
            hint,
            number,
            caller,
        }
    }

    /// Returns the caller alone.
    pub(crate) fn into_caller(self) -> Caller<R>
        ensures { result ≡ caller_of self }
    {
        let Side {
            hint: _,
            number: _,
            caller,
        } = self;
        caller
    }
}

impl<R: Copy> Side<R> {
    ghost use Rattle.std.specs.Prelude.{◌≡◌, ◌↔◌, ◌+◌, ◌<◌, ◌≤◌, ◌⊎◌, false, IsOk, IfOk, IsTrue, IsFalse, None, Ok, OnErr, OnOk};
    ghost use Rattle.refusals.specs.Refusals.{RefusesBy};
    ghost use Rattle.tag_pool.specs.Refusals.{side_checks};
    ghost use mathlib.Core.Option.{some};
    ghost use Rattle.tag_core.specs.Callers.{layout_of, record_of};
    ghost use Rattle.tag_core.specs.declared.posts.TheConstants.{MOST_NOTE};
    ghost use Rattle.tag_search.specs.Exact.{most_exact_steps};
    ghost use Rattle.tag_search.specs.Freed.{left_free};
    ghost use Rattle.tag_pool.specs.Sides.{caller_of, CountsBatch, GetsBatch, GetsExactly, GetsPlain, GetsShallow, HasRoom, hint_of, Holds, HoldsSame, IsPlaced, IsSideOf, Misses, most_steps, number_of, Posts, Puts, ReadsNote, slot_of, step_count, Takes, Writes};
    ghost use Rattle.std.specs.Prelude.{◌∷◌, []};
    ghost use Rattle.tag_layout.specs.Layout.{words};
    ghost use Rattle.tag_pool.specs.Looks.{MakesLooks, FindsHeld, looks_from};

    /// Moves the hint to the first tag of the hand's own part of the set. This makes no step.
    pub(crate) fn place(&mut self, map: &Map<R>)
        requires side { IsSideOf map.now self.old }
        ensures side { IsSideOf map.now self.new }
        ensures placed { IsPlaced map.now self.old self.new }
    {
        let depth = u64::from(map.layout().depth());
        let first = u64::from(self.number) * depth / u64::from(map.callers());
        self.hint.at = first as u32;
    }

    /// Loads a word of the set (1 is taken) and then its cleared set (1 is set aside): two loads, one after the other.
    pub(crate) fn look_both(&mut self, map: &Map<R>, word: u32) -> (u64, u64)
        requires side { IsSideOf map.now self.old }
        requires within { word < words (layout_of map.now) }
        ensures side { IsSideOf map.now self.new × (number_of self.new ≡ number_of self.old) }
        ensures looks { MakesLooks (looks_from word (result ∷ [])) self.old self.new }
        ensures same { HoldsSame self.old self.new }
        ensures held { FindsHeld (layout_of map.now) self.old word result }
    {
        let found = map.look(&mut self.caller, word);
        (found, map.look_aside(&mut self.caller, word))
    }

    /// Clears the tag with this number, as `put` does, or returns its fault: `NoSuchTag` or `NotHeld`.
    #[inline]
    pub(crate) fn clear(&mut self, map: &Map<R>, number: u32) -> Result<(), TagFault>
        requires side { IsSideOf map.now self.old }
        ensures side { IsSideOf map.now self.new × (number_of self.new ≡ number_of self.old) }
        ensures refusals { RefusesBy (side_checks self.old number) (self.new ≡ self.old) result }
        ensures puts { OnOk result (Puts (layout_of map.now) number self.old self.new) }
        ensures back { OnOk result ((record_of (caller_of self.new)).back ≡ (record_of (caller_of self.old)).back + 1) }
        ensures bound { step_count self.new ≤ 1 + step_count self.old }
    {
        if number >= map.layout().depth() {
            return Err(TagFault::NoSuchTag);
        }
        if !self.caller.holds(number) {
            return Err(TagFault::NotHeld);
        }
        self.put(map, number);
        Ok(())
    }

    /// Sets a held tag aside, and moves the hint to it, unless it is round robin. One step.
    #[inline]
    pub(crate) fn put(&mut self, map: &Map<R>, tag: u32)
        requires side { IsSideOf map.now self.old }
        requires held { Holds self.old tag }
        ensures side { IsSideOf map.now self.new × (number_of self.new ≡ number_of self.old) }
        ensures puts { Puts (layout_of map.now) tag self.old self.new }
        ensures back { (record_of (caller_of self.new)).back ≡ (record_of (caller_of self.old)).back + 1 }
        ensures bound { step_count self.new ≡ 1 + step_count self.old }
    {
        on_map::put(map, &mut self.caller, &mut self.hint, tag);
    }

    /// Returns the value in the slot of a held tag.
    #[inline]
    pub(crate) fn read(&mut self, map: &Map<R>, tag: u32) -> R
        requires side { IsSideOf map.now self.old }
        requires held { Holds self.old tag }
        ensures side { IsSideOf map.now self.new × (number_of self.new ≡ number_of self.old) }
        ensures value { slot_of self.old tag ≡ some result }
        ensures same { Writes tag result self.old self.new }
    {
        map.read(&mut self.caller, tag)
    }

    /// Writes the slot of a held tag, and returns its former value.
    #[inline]
    pub(crate) fn write(&mut self, map: &Map<R>, tag: u32, value: R) -> R
        requires side { IsSideOf map.now self.old }
        requires held { Holds self.old tag }
        ensures side { IsSideOf map.now self.new × (number_of self.new ≡ number_of self.old) }
        ensures former { slot_of self.old tag ≡ some result }
        ensures writes { Writes tag value self.old self.new }
    {
        map.slot(&mut self.caller, tag, value)
    }

    /// Posts a held tag with its slot and a note. One step.
    #[inline]
    pub(crate) fn post(&mut self, map: &Map<R>, tag: u32, note: u64)
        requires side { IsSideOf map.now self.old }
        requires held { Holds self.old tag }
        requires note { note ≤ MOST_NOTE }
        ensures side { IsSideOf map.now self.new × (number_of self.new ≡ number_of self.old) }
        ensures posts { Posts tag note self.old self.new }
    {
        map.post(&mut self.caller, tag, note);
    }

    /// Returns the note of a posted tag, or `None` if the tag was not posted. One step.
    #[inline]
    pub(crate) fn read_note(&mut self, map: &Map<R>, tag: u32) -> Option<u64>
        requires side { IsSideOf map.now self.old }
        requires within { tag < (layout_of map.now).depth }
        ensures side { IsSideOf map.now self.new × (number_of self.new ≡ number_of self.old) }
        ensures reads { ReadsNote tag result self.old self.new }
    {
        map.read_note(&mut self.caller, tag)
    }

    /// Takes a posted tag with its slot. One step. Returns false if the tag was not posted.
    #[inline]
    pub(crate) fn take(&mut self, map: &Map<R>, tag: u32) -> bool
        requires side { IsSideOf map.now self.old }
        requires within { tag < (layout_of map.now).depth }
        ensures side { IsSideOf map.now self.new × (number_of self.new ≡ number_of self.old) }
        ensures takes { IsTrue result → Takes tag self.old self.new }
        ensures misses { IsFalse result → Misses tag self.old self.new }
    {
        map.take(&mut self.caller, tag)
    }

    /// Takes a free tag of the set, if a search finds one, and tells how many tags its sweeps left free.
    #[inline(always)]
    pub(crate) fn get(&mut self, map: &Map<R>) -> Result<Found<u32>, Spent>
        requires side { IsSideOf map.now self.old }
        ensures side { IsSideOf map.now self.new × (number_of self.new ≡ number_of self.old) }
        ensures room { IsOk result ↔ HasRoom self.old 1 }
        ensures gets { IfOk result (λ found. GetsPlain (layout_of map.now) found.answer self.old self.new) }
        ensures left { IfOk result (λ found. found.left ≡ left_free (caller_of self.old) (caller_of self.new)) }
        ensures bound { step_count self.new ≤ most_steps (layout_of map.now) + step_count self.old }
        ensures err { OnErr result (self.new ≡ self.old) }
    {
        on_map::get(map, &mut self.caller, &mut self.hint)
    }

    /// The same of a get that is limited to `depth` tags, which are shared out among the words in proportion.
    #[inline(always)]
    pub(crate) fn get_shallow(&mut self, map: &Map<R>, depth: u32) -> Result<Found<u32>, Spent>
        requires side { IsSideOf map.now self.old }
        ensures side { IsSideOf map.now self.new × (number_of self.new ≡ number_of self.old) }
        ensures room { IsOk result ↔ HasRoom self.old 1 }
        ensures gets { IfOk result (λ found. GetsShallow (layout_of map.now) depth found.answer self.old self.new) }
        ensures left { IfOk result (λ found. found.left ≡ left_free (caller_of self.old) (caller_of self.new)) }
        ensures bound { step_count self.new ≤ most_steps (layout_of map.now) + step_count self.old }
        ensures err { OnErr result (self.new ≡ self.old) }
    {
        on_map::get_shallow(map, &mut self.caller, &mut self.hint, depth)
    }

    /// Takes the tag with this number, if it is free, and no other.
    #[inline(always)]
    pub(crate) fn get_exactly(&mut self, map: &Map<R>, tag: u32) -> Result<Found<u32>, Spent>
        requires side { IsSideOf map.now self.old }
        requires within { tag < (layout_of map.now).depth }
        ensures side { IsSideOf map.now self.new × (number_of self.new ≡ number_of self.old) }
        ensures room { IsOk result ↔ HasRoom self.old 1 }
        ensures gets { IfOk result (λ found. GetsExactly (layout_of map.now) tag found.answer self.old self.new) }
        ensures left { IfOk result (λ found. found.left ≡ left_free (caller_of self.old) (caller_of self.new)) }
        ensures bound { step_count self.new ≤ most_exact_steps + step_count self.old }
        ensures err { OnErr result (self.new ≡ self.old) }
    {
        on_map::get_exactly(map, &mut self.caller, tag)
    }

    /// Takes up to `n` free tags of a run, of which it returns the first and the mask of those won. Under round robin it
    /// returns `None` without a step.
    #[inline(always)]
    pub(crate) fn get_batch(&mut self, map: &Map<R>, n: u32) -> Result<Found<(u32, u64)>, Spent>
        requires side { IsSideOf map.now self.old }
        requires count { CountsBatch (layout_of map.now) n }
        ensures side { IsSideOf map.now self.new × (number_of self.new ≡ number_of self.old) }
        ensures room { IsOk result ↔ (IsTrue (hint_of self.old).round_robin ⊎ HasRoom self.old n) }
        ensures round_robin { IsTrue (hint_of self.old).round_robin
            → (result ≡ Ok (record { answer = None; left = 0 })) × (self.new ≡ self.old) }
        ensures gets { (hint_of self.old).round_robin ≡ false
            → IfOk result (λ found. GetsBatch (layout_of map.now) n found.answer self.old self.new) }
        ensures left { IfOk result (λ found. found.left ≡ left_free (caller_of self.old) (caller_of self.new)) }
        ensures bound { step_count self.new ≤ most_steps (layout_of map.now) + step_count self.old }
        ensures err { OnErr result (self.new ≡ self.old) }
    {
        on_map::get_batch(map, &mut self.caller, &mut self.hint, n)
    }
}
