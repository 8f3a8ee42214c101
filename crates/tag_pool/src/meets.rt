//! What two hands that are passed in together can prove.
ghost use Rattle.std.specs.Prelude.{◌≡◌, ◌≢◌, ℕ};
ghost use Rattle.tag_core.specs.Callers.{record_of};
ghost use Rattle.tag_core.specs.Meeting.{ShareHistory};
ghost use Rattle.tag_pool.specs.Hands.{Holds, IsHandOf, IsStillOf, number_of};
ghost use Rattle.tag_pool.specs.Holding.{IsUnchanged};
ghost use Rattle.tag_pool.specs.Meeting.{ShareHistories};
ghost use Rattle.tag_pool.specs.Sides as side;

use crate::hand::Hand;
use crate::pool::Pool;
use crate::side::Side;
use tag_core::Map;

impl<R: Copy> Pool<R> {
    /// Establishes that two hands hold no tag in common, and that in each set their own steps are part of one history.
    /// It changes nothing. Its loads, of a spare word of each set, are in no hand's list.
    pub fn meet(&self, first: &mut Hand<R>, second: &mut Hand<R>)
        requires hands { IsHandOf self.now first.old × IsHandOf self.now second.old }
        ensures hands { IsStillOf self.now first.old first.new × IsStillOf self.now second.old second.new }
        ensures apart { (tag : ℕ) → Holds first.new tag → ¬ (Holds second.new tag) }
        ensures numbers { number_of first.new ≢ number_of second.new }
        ensures histories { ShareHistories self.now first.new second.new }
        ensures unchanged { IsUnchanged first.old first.new × IsUnchanged second.old second.new }
    {
        first.reserved.meet(&mut second.reserved, &self.reserved);
        first.ordinary.meet(&mut second.ordinary, &self.ordinary);
    }

    /// Establishes that the second hand does not hold a tag that the first one holds. This makes no step.
    pub fn apart(&self, first: &mut Hand<R>, second: &mut Hand<R>, tag: u32)
        requires hands { IsHandOf self.now first.old × IsHandOf self.now second.old }
        requires held { Holds first.old tag }
        ensures apart { ¬ (Holds second.old tag) }
        ensures same { (first.new ≡ first.old) × (second.new ≡ second.old) }
    {
        if tag < self.reserved_count {
            first
                .reserved
                .apart(&mut second.reserved, &self.reserved, tag)
        } else {
            let number = tag - self.reserved_count;
            first
                .ordinary
                .apart(&mut second.ordinary, &self.ordinary, number)
        }
    }
}

impl<R: Copy> Side<R> {
    /// Establishes that two sides hold no tag in common, and that their own steps are part of one history of the map.
    fn meet(&mut self, other: &mut Side<R>, map: &Map<R>)
        requires sides { side.IsSideOf map.now self.old × side.IsSideOf map.now other.old }
        ensures sides { side.IsSideOf map.now self.new × side.IsSideOf map.now other.new }
        ensures same { (side.number_of self.new ≡ side.number_of self.old) × (side.number_of other.new ≡ side.number_of other.old) }
        ensures apart { (number : ℕ) → side.Holds self.new number → ¬ (side.Holds other.new number) }
        ensures numbers { side.number_of self.new ≢ side.number_of other.new }
        ensures history { ShareHistory map.now.shape (record_of (side.caller_of self.new)) (record_of (side.caller_of other.new)) }
        ensures unchanged { side.IsUnchanged self.old self.new × side.IsUnchanged other.old other.new }
    {
        map.meet(&mut self.caller, &mut other.caller);
    }

    /// Establishes that the other side does not hold a tag that this one holds.
    fn apart(&mut self, other: &mut Side<R>, map: &Map<R>, number: u32)
        requires sides { side.IsSideOf map.now self.old × side.IsSideOf map.now other.old }
        requires held { side.Holds self.old number }
        ensures apart { ¬ (side.Holds other.old number) }
        ensures same { (self.new ≡ self.old) × (other.new ≡ other.old) }
    {
        map.apart(&mut self.caller, &mut other.caller, number);
    }
}
