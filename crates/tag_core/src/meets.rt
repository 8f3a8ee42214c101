//! What follows from having callers at hand: who holds what, and that one history shows it.
ghost use Rattle.std.specs.Prelude.{◌≡◌, ◌≢◌, ℕ};
ghost use Rattle.tag_core.specs.Meeting.{HasHistory, ShareHistory};
ghost use Rattle.tag_core.specs.Callers.{IsCallerOf, record_of, Holds, IsUnchanged};

use crate::caller::Caller;
use crate::map::Map;
use crate::plays::Meeting;
use crate::spots::SPARE;
use step_ledger::{Collect, HandOut};

impl<R> Map<R> {
    /// Establishes that two callers hold no tag in common. Its seven loads, of the spare word, change no place and stand
    /// in no list.
    pub fn meet(&self, first: &mut Caller<R>, second: &mut Caller<R>)
        requires callers { IsCallerOf self.now first.old × IsCallerOf self.now second.old }
        ensures callers { IsCallerOf self.now first.new × IsCallerOf self.now second.new }
        ensures apart { (tag : ℕ) → Holds first.new tag → ¬ (Holds second.new tag) }
        ensures numbers { (record_of first.new).number ≢ (record_of second.new).number }
        ensures history { ShareHistory self.now.shape (record_of first.new) (record_of second.new) }
        ensures unchanged { IsUnchanged first.old first.new × IsUnchanged second.old second.new }
    {
        let table = &self.table.shared;
        let mut both = table.split_seat::<HandOut>(&mut first.seat);
        let other = table.split_seat::<HandOut>(&mut second.seat);
        table.join_seat::<Collect>(&mut both, other);
        table.load::<Meeting>(&mut both, SPARE);
        let one = table.split_seat::<HandOut>(&mut both);
        table.join_seat::<Collect>(&mut first.seat, one);
        table.join_seat::<Collect>(&mut second.seat, both);
    }

    /// Establishes that the second caller doesn't hold a tag that the first holds. It makes no load: the second's own mask
    /// doesn't have the tag, since two callers that both held it could not meet.
    pub fn apart(&self, first: &mut Caller<R>, second: &mut Caller<R>, tag: u32)
        requires callers { IsCallerOf self.now first.old × IsCallerOf self.now second.old }
        requires held { Holds first.old tag }
        ensures apart { ¬ (Holds second.old tag) }
        ensures same { (first.new ≡ first.old) × (second.new ≡ second.old) }
    {
        if second.holds(tag) {
            self.meet(first, second);
            unreachable!()
        }
    }
}

impl<R> Caller<R> {
    /// Establishes that one lawful history has the caller's record. It makes no load: each step of the caller showed it.
    pub fn history(&self)
        ensures { ∥ HasHistory (record_of self.now).shape (record_of self.now) ∥₁ }
    {}
}
