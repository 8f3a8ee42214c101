//! The handle through which one thread uses both sets.
ghost use Rattle.tag_pool.specs.Sides.{number_of as side_number_of};

use crate::kind::Kind;
use crate::side::Side;
use step_ledger::Numbered;

/// One thread's handle on both sets of tags.
#[derive(Drop)]
pub struct Hand<R> {
    /// Number of reserved tags, which are the first of the range.
    pub(crate) reserved_count: u32,
    pub(crate) reserved: Side<R>,
    /// Must be the last field: a side ends with padding, so hands that are adjacent in memory share no cache line.
    pub(crate) ordinary: Side<R>,
}

impl<R> Numbered for Hand<R> {
    ghost number_of = { λ hand. side_number_of hand.ordinary };

    fn number(&self) -> u32 {
        self.ordinary.number
    }
}

impl<R> Hand<R> {
    ghost use Rattle.std.specs.Prelude.{◌≡◌, ◌*◌, ◌<◌, ◌≤◌, ◌↔◌, IsTrue};
    ghost use Rattle.tag_model.specs.declared.world.TheConstants.{MOST_WON, MAX_CALLERS};
    ghost use Rattle.std.specs.Borrow.{sem};
    ghost use Rattle.tag_pool.specs.Lending.{LendsSide, side_of};
    ghost use Rattle.tag_pool.specs.Hands.{Holds, IsTagOf, split_of};
    ghost use Rattle.tag_pool.specs.Tallies.{won_in_both, back_in_both};

    /// Returns the hand's side in a set.
    #[inline(always)]
    pub(crate) fn side(&self, kind: Kind) -> &Side<R>
        ensures { result.now ≡ side_of self.now kind }
    {
        match kind {
            Kind::Ordinary => &self.ordinary,
            Kind::Reserved => &self.reserved,
        }
    }

    /// Lends the hand's side in a set.
    #[inline(always)]
    pub(crate) fn side_mut(&mut self, kind: Kind) -> &mut Side<R>
        ensures* writes_back { sem 𝓛 (LendsSide R.row self.entry kind result) }
        ensures value { result.now ≡ side_of self.old kind }
    {
        match kind {
            Kind::Ordinary => &mut self.ordinary,
            Kind::Reserved => &mut self.reserved,
        }
    }

    /// Returns whether the hand holds the tag. This makes no step.
    pub fn holds(&self, tag: u32) -> bool
        requires { IsTagOf self.now tag }
        ensures { IsTrue result ↔ Holds self.now tag }
    {
        self.holds_past(self.reserved_count, tag)
    }

    /// Returns whether the hand holds the tag, as `holds` does, for a caller that has loaded the number of reserved tags.
    #[inline(always)]
    pub(crate) fn holds_past(&self, reserved: u32, tag: u32) -> bool
        requires split { split_of self.now ≡ reserved }
        requires tag { IsTagOf self.now tag }
        ensures { IsTrue result ↔ Holds self.now tag }
    {
        if tag < reserved {
            self.reserved.caller.holds(tag)
        } else {
            self.ordinary.caller.holds(tag - reserved)
        }
    }

    /// Returns how many tags of both sets the hand has won so far, over all resizes. Tags that it took are not among
    /// them. This makes no step.
    #[inline]
    pub fn won(&self) -> u64
        ensures value { result ≡ won_in_both self.now }
        ensures within { result ≤ 2 * MOST_WON }
    {
        self.ordinary.caller.won() + self.reserved.caller.won()
    }

    /// Returns how many tags of both sets the hand has given back so far, over all resizes. Tags that it took are among
    /// them. This makes no step.
    #[inline]
    pub fn given(&self) -> u64
        ensures value { result ≡ back_in_both self.now }
        ensures within { result ≤ 2 * MAX_CALLERS * MOST_WON }
    {
        self.ordinary.caller.back() + self.reserved.caller.back()
    }
}
