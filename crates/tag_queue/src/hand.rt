//! The handle through which one thread uses a queue.
ghost use Rattle.std.specs.Prelude.{◌≡◌, ◌≤◌};
ghost use Rattle.tag_pool.specs.Hands.{back_of, number_of as pool_number};
ghost use Rattle.tag_pool.specs.declared.kind.Kind.TheVariants.{Ordinary};
ghost use Rattle.wake_book.specs.Book.{number_of as teller_number, counted_by, charged_by};
ghost use Rattle.wake_book.specs.Groups.{number_of as waiter_number, moved_of};
ghost use Rattle.tag_queue.specs.Bell.{WaitsNowhere};

use step_ledger::Numbered;
use tag_pool::Hand;
use wake_book::{Announcement, Groups, Sighting, Teller, Waiter};

/// One thread's handle on a queue. It holds tags, counts completions, wakes other hands, and waits.
#[derive(Drop)]
pub struct QueueHand<R> {
    pub(crate) teller: Teller,
    pub(crate) waiter: Waiter,
    /// Its latest look for waiters, and what it had done in the pool by then. It has no bytes: only contracts see it.
    pub(crate) sighting: Sighting<Hand<R>>,
    /// When it announced its latest sleep, and what it had done in the pool by then. This has no bytes either.
    pub(crate) announcement: Announcement<Hand<R>>,
    /// The hand of the pool. Must be the last field: it ends with padding.
    pub(crate) inner: Hand<R>,
    ghost numbers: { (teller_number teller ≡ pool_number inner) × (waiter_number waiter ≡ pool_number inner) },

    // It counts only ordinary tags that it gave back, and grants at most as many wakeups as it charged completions.
    ghost counts: { counted_by teller ≤ back_of inner Ordinary },
    ghost wakes: { moved_of waiter ≤ charged_by teller },

    // It waits in groups alone, and in no set by the bell.
    ghost up: { WaitsNowhere inner },
}

impl<R> Numbered for QueueHand<R> {
    ghost number_of = { λ hand. pool_number hand.inner };

    fn number(&self) -> u32 {
        self.inner.number()
    }
}

impl<R> QueueHand<R> {
    ghost use Rattle.std.specs.Prelude.{◌*◌, ◌≡◌, ◌≤◌, ◌↔◌, IsSome, IsTrue};
    ghost use Rattle.tag_model.specs.declared.world.TheConstants.{MAX_CALLERS, MOST_WON};
    ghost use Rattle.tag_pool.specs.Hands.{Holds, IsTagOf};
    ghost use Rattle.tag_pool.specs.Tallies.{back_in_both, won_in_both};
    ghost use Rattle.tag_queue.specs.Hands.{in_pool, standing_of};

    /// Returns whether the hand holds the tag. This makes no step.
    pub fn holds(&self, tag: u32) -> bool
        requires { IsTagOf (in_pool self.now) tag }
        ensures { IsTrue result ↔ Holds (in_pool self.now) tag }
    {
        self.inner.holds(tag)
    }

    /// Returns whether the hand is in a wait group. This makes no step.
    #[inline]
    pub fn is_waiting(&self) -> bool
        ensures { IsTrue result ↔ IsSome (standing_of self.now) }
    {
        Groups::standing(&self.waiter).is_some()
    }

    /// Returns how many tags of both sets the hand has won so far, over all resizes. Tags that it took are not among
    /// them. This makes no step.
    #[inline]
    pub fn won(&self) -> u64
        ensures value { result ≡ won_in_both (in_pool self.now) }
        ensures within { result ≤ 2 * MOST_WON }
    {
        self.inner.won()
    }

    /// Returns how many tags of both sets the hand has given back so far, over all resizes. Tags that it took are among
    /// them. This makes no step.
    #[inline]
    pub fn given(&self) -> u64
        ensures value { result ≡ back_in_both (in_pool self.now) }
        ensures within { result ≤ 2 * MAX_CALLERS * MOST_WON }
    {
        self.inner.given()
    }
}
