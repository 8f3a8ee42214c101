//! An allocator of tags that threads share, and what a thread may do with its tags.
ghost use Rattle.std.specs.Prelude.{ℕ, List, All, IfOk, IfSome, IsTrue};

use crate::measure::Failed;
use std::alloc::Global;
use tag_core::Spent;
use tag_model::Totals;
use tag_search::Hint;

/// An allocator of tags that threads share, each through a hand.
pub(crate) trait TagAllocator {
    /// What one thread needs to use them.
    type Hand;

    /// The hand is one of these tags' own.
    ghost is_own: { Self → Self.Hand → Type 0 };

    /// The hand holds the tag.
    ghost holds: { Self.Hand → ℕ → Type 0 };

    /// New tags, and a hand for each thread.
    fn open(alloc: Global, depth: u32, threads: u32) -> Result<(Self, Vec<Self::Hand>), Failed>
        ensures { IfOk result (λ opened. All (is_own opened.0) opened.1.items) };

    /// Ends the tags, with all their hands: what these won and gave back.
    fn gather(self, hands: Vec<Self::Hand>) -> Result<Totals, Failed>
        requires { All (is_own self) hands.items };

    /// Has the hand's next get begin in its own part of the tags, where the hand keeps a hint of its own.
    fn place(&self, hand: &mut Self::Hand)
        requires { is_own self.now hand.old }
        ensures { is_own self.now hand.new };

    /// A free tag, which the hand holds from now on. The hint here and below is for a hand that keeps none itself.
    fn get(&self, hand: &mut Self::Hand, hint: &mut Hint) -> Result<Option<u32>, Spent>
        requires { is_own self.now hand.old }
        ensures hand { is_own self.now hand.new }
        ensures held { IfOk result (λ answer. IfSome answer (holds hand.new)) };

    /// Exchanges the value of a held tag's slot.
    fn touch(&self, hand: &mut Self::Hand, tag: u32, value: u32)
        requires hand { is_own self.now hand.old }
        requires held { holds hand.old tag }
        ensures hand { is_own self.now hand.new }
        ensures kept { (t : ℕ) → holds hand.old t → holds hand.new t };

    /// Clears a held tag.
    fn clear(&self, hand: &mut Self::Hand, hint: &mut Hint, tag: u32)
        requires hand { is_own self.now hand.old }
        requires held { holds hand.old tag }
        ensures { is_own self.now hand.new };

    /// Clears a tag where the hand holds it.
    fn test_and_clear(&self, hand: &mut Self::Hand, hint: &mut Hint, tag: u32)
        requires { is_own self.now hand.old }
        ensures { is_own self.now hand.new };

    /// Posts a held tag.
    fn post(&self, hand: &mut Self::Hand, tag: u32)
        requires hand { is_own self.now hand.old }
        requires held { holds hand.old tag }
        ensures { is_own self.now hand.new };

    /// Takes a tag where it is posted, and answers whether it was.
    fn take(&self, hand: &mut Self::Hand, tag: u32) -> bool
        requires { is_own self.now hand.old }
        ensures hand { is_own self.now hand.new }
        ensures held { IsTrue result → holds hand.new tag };
}
