//! Loads of the words of a set.
ghost use Rattle.std.specs.Prelude.{◌≡◌, ◌<◌, ◌∷◌, []};
ghost use Rattle.tag_layout.specs.Layout.{words};
ghost use Rattle.tag_pool.specs.Hands.{IsHandOf, IsStillOf, Changes, layout_of};
ghost use Rattle.tag_pool.specs.Holding.{HoldsSame};
ghost use Rattle.tag_pool.specs.Lending.{side_of};
ghost use Rattle.tag_pool.specs.Looks.{MakesLooks, FindsHeld, looks_from};

use crate::hand::Hand;
use crate::kind::Kind;
use crate::pool::Pool;
use tag_layout::Layout;

mod busy;
mod dump;
pub(crate) mod marks;
pub(crate) mod texts;

impl<R> Pool<R> {
    /// Returns the layout of a set: how its tags are arranged in words.
    pub fn layout(&self, kind: Kind) -> Layout
        ensures { result ≡ layout_of self.now kind }
    {
        self.map(kind).layout()
    }
}

impl<R: Copy> Pool<R> {
    /// Loads a word of a set (1 is taken) and then its cleared set (1 is set aside): two loads, one after the other.
    pub(crate) fn look_both(&self, hand: &mut Hand<R>, kind: Kind, word: u32) -> (u64, u64)
        requires hand { IsHandOf self.now hand.old }
        requires within { word < words (layout_of self.now kind) }
        ensures hand { IsStillOf self.now hand.old hand.new }
        ensures looks { Changes kind (MakesLooks (looks_from word (result ∷ []))) hand.old hand.new }
        ensures same { HoldsSame hand.old hand.new }
        ensures held { FindsHeld (layout_of self.now kind) (side_of hand.old kind) word result }
    {
        hand.side_mut(kind).look_both(self.map(kind), word)
    }
}
