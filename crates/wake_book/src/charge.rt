//! Counts completions, and charges a batch of them if one is due.
ghost use Rattle.std.specs.Prelude.{◌≡◌, ◌≢◌, ℕ, ◌+◌, ◌-◌, ◌^◌, ◌<◌, ◌≤◌, ◌↔◌, List, ◌∷◌, length, IsTrue, IsFalse};
ghost use Rattle.wake_book.specs.Book.{IsTellerOf, steps_of, number_of, counted_by, charged_by, cap_of, batch_of, JustSaw, LosesAdvance, Rebatches};
ghost use Rattle.wake_book.specs.Charging.{IsCharge, counted_as, taken_as, count_steps};
ghost use Rattle.wake_book.specs.declared.steps.BookStep.TheVariants.{LookCompletions, LookWakeups, Add, Advance};

use crate::book::{Book, COMPLETIONS, Teller, WAKEUPS};
use crate::book_plays::{CountSome, MoveOn, SeeCompletions, SeeWakeups};
use crate::steps::BookStep;

/// Exchanges that a charge may lose before it leaves the batch to a later completion.
const TRIES: u32 = 16;

/// The outcome of a `count`. A batch is due if at least a batch of completions are not charged yet.
#[derive(Clone, Copy, Debug, PartialEq, Eq)]
pub enum Charge {
    /// The teller's count would exceed the cap. Nothing was counted, and no step was made.
    Full,
    /// The completions were counted, and no batch was due.
    Below,
    /// The completions were counted and one batch charged: the wakeup count advanced by a batch from this number.
    Won(u64),
    /// The completions were counted, but all 16 tries to charge a batch lost their exchange. Nothing was charged.
    Busy,
}

impl Book {
    /// Sets the batch of later charges, 1 to 8. The table and its limits are unchanged: counts and intervals continue.
    pub fn rebatch(&mut self, batch: u32)
        requires { (1 ≤ batch) × (batch ≤ 8) }
        ensures { Rebatches self.old self.new batch }
    {
        self.batch = batch;
    }

    /// Counts `n` completions, 1 to 64, and charges one batch if one is due. Other tellers may count and charge
    /// meanwhile. It is the counterpart of `sbitmap_queue_wake_up` (lib/sbitmap.c) up to the wakeups, with at most 16
    /// tries. This adds at most 49 steps to the teller's list; loads that are not recorded as steps are not counted.
    pub fn count(&self, teller: &mut Teller, n: u32) -> Charge
        requires book { IsTellerOf self.now teller.old }
        requires within { (1 ≤ n) × (n ≤ 64) }
        ensures book { IsTellerOf self.now teller.new × (number_of teller.new ≡ number_of teller.old) }
        ensures lawful { IsCharge (cap_of self.now) (batch_of self.now) n (steps_of teller.old) (steps_of teller.new) result }
        ensures counted { counted_by teller.new ≡ counted_by teller.old + counted_as n result }
        ensures charged { charged_by teller.new ≡ charged_by teller.old + taken_as (batch_of self.now) result }
        ensures bound { length (steps_of teller.new) ≤ count_steps + length (steps_of teller.old) }
    {
        let n = n as u64;
        if n + teller.count > self.limits.cap {
            return Charge::Full;
        }
        self.add(teller, n);
        for _ in 0..TRIES {
            let start = self.look_wakeups(teller);
            let end = start + self.batch as u64;
            if self.look_completions(teller) < end {
                return Charge::Below;
            }
            if self.advance(teller, start, end) {
                return Charge::Won(start);
            }
        }
        Charge::Busy
    }

    /// Returns the completions and the wakeups. The wakeups are loaded first, so they are at most as many.
    pub fn counts(&self, teller: &mut Teller) -> (u64, u64)
        requires book { IsTellerOf self.now teller.old }
        ensures book { IsTellerOf self.now teller.new × (number_of teller.new ≡ number_of teller.old) }
        ensures step { steps_of teller.new ≡ LookCompletions result.0 ∷ LookWakeups result.1 ∷ steps_of teller.old }
        ensures ordered { result.1 ≤ result.0 }
        ensures own { counted_by teller.old ≤ result.0 }
    {
        let wakeups = self.look_wakeups(teller);
        let completions = self.look_completions(teller);
        (completions, wakeups)
    }

    /// Loads the wakeups and then the completions without a teller, and returns the completions first. The loads are in
    /// no list of steps, so no clause says what they find.
    pub fn peek_counts(&self) -> (u64, u64)
        ensures { result.1 ≤ result.0 }
    {
        let wakeups = self.table.shared.peek(WAKEUPS);
        let completions = self.table.shared.peek(COMPLETIONS);
        (completions.max(wakeups), wakeups)
    }

    fn look_completions(&self, teller: &mut Teller) -> u64
        requires { IsTellerOf self.now teller.old }
        ensures book { IsTellerOf self.now teller.new × (number_of teller.new ≡ number_of teller.old) }
        ensures same { (teller.new.count ≡ teller.old.count) × (teller.new.charges ≡ teller.old.charges) }
        ensures step { (steps_of teller.new ≡ LookCompletions result ∷ steps_of teller.old) × (result < 2 ^ 63) }
        ensures own { counted_by teller.old ≤ result }
        ensures above { (wakeups : ℕ) (before : List BookStep) → steps_of teller.old ≡ LookWakeups wakeups ∷ before → wakeups ≤ result }
    {
        self.table
            .shared
            .load::<SeeCompletions>(&mut teller.seat, COMPLETIONS)
    }

    fn look_wakeups(&self, teller: &mut Teller) -> u64
        requires { IsTellerOf self.now teller.old }
        ensures book { IsTellerOf self.now teller.new × (number_of teller.new ≡ number_of teller.old) }
        ensures same { (teller.new.count ≡ teller.old.count) × (teller.new.charges ≡ teller.old.charges) }
        ensures step { (steps_of teller.new ≡ LookWakeups result ∷ steps_of teller.old) × (result < 2 ^ 63) }
    {
        self.table
            .shared
            .load::<SeeWakeups>(&mut teller.seat, WAKEUPS)
    }

    fn add(&self, teller: &mut Teller, n: u64)
        requires book { IsTellerOf self.now teller.old }
        requires room { teller.old.count + n ≤ cap_of self.now }
        ensures book { IsTellerOf self.now teller.new × (number_of teller.new ≡ number_of teller.old) }
        ensures same { (teller.new.count ≡ teller.old.count + n) × (teller.new.charges ≡ teller.old.charges) }
        ensures step { (found : ℕ) × (steps_of teller.new ≡ Add n found ∷ steps_of teller.old) }
    {
        self.table
            .shared
            .fetch_add::<CountSome>(&mut teller.seat, COMPLETIONS, n);
        teller.count += n;
    }

    /// Advances the wakeup count from `start` to `end` if it is still `start`.
    fn advance(&self, teller: &mut Teller, start: u64, end: u64) -> bool
        requires book { IsTellerOf self.now teller.old }
        requires batch { (start < end) × (end ≤ start + 8) }
        requires seen { JustSaw teller.old end }
        requires room { teller.old.charges < teller.old.count }
        ensures book { IsTellerOf self.now teller.new × (number_of teller.new ≡ number_of teller.old) }
        ensures same { teller.new.count ≡ teller.old.count }
        ensures won { IsTrue result → steps_of teller.new ≡ Advance start end start ∷ steps_of teller.old }
        ensures taken { IsTrue result → charged_by teller.new ≡ charged_by teller.old + (end - start) }
        ensures kept { IsFalse result → charged_by teller.new ≡ charged_by teller.old }
        ensures lost { IsFalse result → (teller.new.charges ≡ teller.old.charges) × LosesAdvance start end teller.old teller.new }
    {
        let found = self
            .table
            .shared
            .compare_exchange::<MoveOn>(&mut teller.seat, WAKEUPS, start, end);
        if found != start {
            return false;
        }
        teller.charges += 1;
        true
    }
}
