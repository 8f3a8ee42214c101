//! No tag has two holders: a tag that one caller holds is held by no other.
ghost use Rattle.std.specs.Prelude.{◌≡◌, nat_eq, true, Some, MatchOption};
ghost use Rattle.tag_board.specs.Boards.{state_of, IsCallerOf};
ghost use Rattle.tag_board.specs.Replays.{is_answer, is_in_run, NobodyElseHolds, IsOtherHolder, HoldsAll};

use crate::board::Board;

impl Board {
    /// Returns another caller that holds the tag, if there is one. It tests one bit per caller.
    fn other_holder(&self, caller: u32, tag: u32) -> Option<usize>
        requires { ((state_of self.now).part caller).held tag ≡ true }
        ensures { MatchOption result (NobodyElseHolds (state_of self.now) caller (nat_eq tag))
            (IsOtherHolder (state_of self.now) caller tag) }
    {
        for other in 0..self.hands.len() {
            if other != caller as usize && self.hands[other].holds(tag) {
                return Some(other);
            }
        }
        None
    }

    /// Establishes that no other caller holds a tag that this one holds. If another did, `apart` on the two hands would
    /// refute it, so that branch is unreachable.
    fn tell_alone(&mut self, caller: u32, tag: u32)
        requires caller { IsCallerOf self.old caller }
        requires held { ((state_of self.old).part caller).held tag ≡ true }
        ensures same { self.new ≡ self.old }
        ensures alone { NobodyElseHolds (state_of self.old) caller (nat_eq tag) }
    {
        if let Some(other) = self.other_holder(caller, tag) {
            let own = caller as usize;
            let mut later = self.hands.remove(own.max(other));
            let mut earlier = self.hands.remove(own.min(other));
            self.queue.apart(&mut earlier, &mut later, tag);
            unreachable!()
        }
    }

    /// Establishes that no caller but this one holds the answered tag, if there is one.
    pub(crate) fn tell_free(&mut self, caller: u32, answer: Option<u32>)
        requires caller { IsCallerOf self.old caller }
        requires held { HoldsAll (state_of self.old) caller (is_answer answer) }
        ensures same { self.new ≡ self.old }
        ensures alone { NobodyElseHolds (state_of self.old) caller (is_answer answer) }
    {
        if let Some(tag) = answer {
            self.tell_alone(caller, tag);
        }
    }

    /// Establishes the same for each tag of a run. The lowest bit of the mask is the tag `first`.
    fn tell_each_alone(&mut self, caller: u32, first: u32, mask: u64)
        requires caller { IsCallerOf self.old caller }
        requires held { HoldsAll (state_of self.old) caller (is_in_run (Some (first, mask))) }
        ensures same { self.new ≡ self.old }
        ensures alone { NobodyElseHolds (state_of self.old) caller (is_in_run (Some (first, mask))) }
    {
        for place in 0..64 {
            if mask & (1 << place) != 0 {
                self.tell_alone(caller, first + place);
            }
        }
    }

    /// Establishes that no caller but this one holds a tag of the answered batch, if there is one.
    pub(crate) fn tell_run_free(&mut self, caller: u32, answer: Option<(u32, u64)>)
        requires caller { IsCallerOf self.old caller }
        requires held { HoldsAll (state_of self.old) caller (is_in_run answer) }
        ensures same { self.new ≡ self.old }
        ensures alone { NobodyElseHolds (state_of self.old) caller (is_in_run answer) }
    {
        if let Some((first, mask)) = answer {
            self.tell_each_alone(caller, first, mask);
        }
    }
}
