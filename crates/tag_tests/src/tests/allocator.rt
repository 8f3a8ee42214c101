//! What pools, with caches or without, and queues have in common.
ghost use Rattle.std.specs.Prelude.{ℕ, All, IfOk, IfErr, IsTrue};
ghost use Rattle.tag_tests.specs.Owning.{IsFact};

use crate::tests::answers::Answer;
use crate::tests::calls::Call;
use std::alloc::Global;
use std::sync::Wait;
use tag_pool::{GatherCause, ResizeCause, Totals};

/// An allocator of tags that callers share, each through a handle: a hand of a pool, a cache, or a hand of a queue.
pub(crate) trait TagAllocator: Drop {
    /// The handle of one caller.
    type Caller: Drop;

    /// The caller is one of these tags' own.
    ghost is_own: { Self → Self.Caller → Type 0 };

    /// That a caller is one of the tags' own has at most one proof; the invariants of `Stage` need that.
    ghost is_fact: { IsFact is_own };

    /// The caller holds the tag.
    ghost holds: { Self.Caller → ℕ → Type 0 };

    fn number(caller: &Self::Caller) -> u32;

    /// Makes a call. Its contract says only that the caller still belongs to the tags, so each call of a test costs
    /// little to prove.
    fn act<W: Wait>(&self, rt: &W, caller: &mut Self::Caller, call: Call) -> Answer
        requires { is_own self.now caller.old }
        ensures { is_own self.now caller.new };

    /// Clears these tags in a batch.
    fn clear_batch(&self, caller: &mut Self::Caller, tags: &[u32]) -> Answer
        requires { is_own self.now caller.old }
        ensures { is_own self.now caller.new };

    /// Returns whether the number is a tag's and the caller holds that tag.
    fn has(&self, caller: &mut Self::Caller, tag: u32) -> bool
        requires { is_own self.now caller.old }
        ensures own { is_own self.now caller.new }
        ensures held { IsTrue result → holds caller.new tag };

    fn meet(&self, first: &mut Self::Caller, second: &mut Self::Caller)
        requires first { is_own self.now first.old }
        requires second { is_own self.now second.old }
        ensures first { is_own self.now first.new }
        ensures second { is_own self.now second.new };

    fn apart(&self, first: &mut Self::Caller, second: &mut Self::Caller, tag: u32)
        requires first { is_own self.now first.old }
        requires second { is_own self.now second.old }
        requires held { holds first.old tag }
        ensures first { is_own self.now first.new }
        ensures second { is_own self.now second.new };

    /// Closes the tags, or hands all back with the cause.
    fn gather(
        self,
        callers: Vec<Self::Caller>,
    ) -> Result<Totals, (GatherCause, Self, Vec<Self::Caller>)>
        requires { All (is_own self) callers.items }
        ensures own { IfErr result (λ back. All (is_own back.1) back.2.items) }
        ensures others { IfErr result (λ back. (c : Self.Caller) → is_own self c → is_own back.1 c) };

    /// Continues with this many tags, or hands all back with the cause.
    fn resize(
        self,
        alloc: Global,
        callers: Vec<Self::Caller>,
        count: u32,
    ) -> Result<(Self, Vec<Self::Caller>), (ResizeCause, Self, Vec<Self::Caller>)>
        requires { All (is_own self) callers.items }
        ensures ok { IfOk result (λ next. All (is_own next.0) next.1.items) }
        ensures own { IfErr result (λ back. All (is_own back.1) back.2.items) }
        ensures others { IfErr result (λ back. (c : Self.Caller) → is_own self c → is_own back.1 c) };
}
