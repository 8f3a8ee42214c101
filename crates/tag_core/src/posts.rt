//! Posts and takes: how a held tag passes from caller to caller, and the note that anybody may read meanwhile.
ghost use Rattle.std.specs.Prelude.{◌≡◌, ℕ, ◌<◌, ◌≤◌, IsTrue, IsFalse, Some, None};
ghost use mathlib.Core.Option.{some};
ghost use Rattle.tag_core.specs.Callers.{layout_of, IsCallerOf, Holds, slot_of, record_of, Adds};
ghost use Rattle.tag_core.specs.Holding.{HoldsLess, HoldsMore, HoldsSame};
ghost use Rattle.tag_core.specs.declared.posts.TheConstants.{MOST_NOTE};
ghost use Rattle.tag_core.specs.Notes.{IsTrueNote, found_of};
ghost use Rattle.tag_core.specs.declared.step.Step.TheVariants.{Post, ReadNote, Take};

use crate::caller::Caller;
use crate::map::Map;
use crate::plays::{Posting, ReadingNote, Taking};

/// The greatest note.
pub const MOST_NOTE: u64 = u64::MAX - 1;

/// The note of which the word of a tag's state tells.
fn note_in(state: u64) -> Option<u64>
    ensures { found_of result ≡ state }
{
    if state == 0 {
        return None;
    }
    Some(state - 1)
}

impl<R> Map<R> {
    /// Posts a held tag with its slot and a note, for whichever caller takes it first. Until then anybody may read the
    /// note. One step, a store.
    pub fn post(&self, caller: &mut Caller<R>, tag: u32, note: u64)
        requires caller { IsCallerOf self.now caller.old }
        requires held { Holds caller.old tag }
        requires note { note ≤ MOST_NOTE }
        ensures caller { IsCallerOf self.now caller.new }
        ensures step { (value : R) × (slot_of caller.old tag ≡ some value)
            × Adds (Post tag note value) caller.old caller.new }
        ensures released { HoldsLess (λ t. t ≡ tag) caller.old caller.new }
    {
        let word = caller.layout.word_of(tag) as usize;
        let bit = 1u64 << caller.layout.place_of(tag);
        let table = &self.table.shared;
        let state = caller.state_spot(tag);
        table.store::<Posting>(&mut caller.seat, state, note + 1);
        let held = caller.held[word] & !bit;
        caller.held[word] = held;
    }

    /// Takes a posted tag with its slot, and ends its note. One step, a swap. Returns false if the tag was not posted; the
    /// caller then holds what it held.
    pub fn take(&self, caller: &mut Caller<R>, tag: u32) -> bool
        requires caller { IsCallerOf self.now caller.old }
        requires within { tag < (layout_of self.now).depth }
        ensures caller { IsCallerOf self.now caller.new }
        ensures won { IsTrue result
            → (value : R) × (slot_of caller.new tag ≡ some value) × Adds (Take tag 1 (Some value)) caller.old caller.new }
        ensures acquired { IsTrue result → HoldsMore (λ t. t ≡ tag) caller.old caller.new }
        ensures missed { IsFalse result → Adds (Take tag 0 None) caller.old caller.new }
        ensures kept { IsFalse result → HoldsSame caller.old caller.new }
    {
        let word = caller.layout.word_of(tag) as usize;
        let bit = 1u64 << caller.layout.place_of(tag);
        let table = &self.table.shared;
        let state = caller.state_spot(tag);
        let found = table.swap::<Taking>(&mut caller.seat, state, 0);
        if found == 0 {
            return false;
        }
        let held = caller.held[word] | bit;
        caller.held[word] = held;
        true
    }

    /// Returns the note of a posted tag, whoever posted it. One step, a load. Returns `None` if the tag was not posted.
    pub fn read_note(&self, caller: &mut Caller<R>, tag: u32) -> Option<u64>
        requires caller { IsCallerOf self.now caller.old }
        requires within { tag < (layout_of self.now).depth }
        ensures caller { IsCallerOf self.now caller.new }
        ensures step { Adds (ReadNote tag (found_of result)) caller.old caller.new }
        ensures kept { HoldsSame caller.old caller.new }
        ensures note { IsTrueNote R self.now.shape (record_of caller.old).number tag result }
    {
        let table = &self.table.shared;
        let state = caller.state_spot(tag);
        note_in(table.load::<ReadingNote>(&mut caller.seat, state))
    }
}
