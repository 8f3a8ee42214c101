//! What one thread does in the workloads `pair`, `ring` and `full`.
ghost use Rattle.std.specs.Prelude.{IfSome};

use crate::allocator::TagAllocator;
use crate::jobs::{Job, Plan};
use tag_search::Hint;

/// The most tags that one thread holds.
const MOST: usize = 10_240;

/// Gets in a row that may find no free tag before a thread gives up.
const PATIENCE: u32 = u32::MAX;

/// Stands where a thread holds no tag.
const NO_TAG: u32 = u32::MAX;

/// Each thread gets a tag, touches its slot and clears it.
#[derive(Drop)]
pub(crate) struct Pairs;

impl<T: TagAllocator> Job<T> for Pairs {
    #[inline(never)]
    fn work(&self, tags: &T, hand: &mut T::Hand, index: usize, plan: Plan) {
        let mut hint = plan.hint(index);
        for round in 0..plan.rounds {
            if let Some(tag) = win(tags, hand, &mut hint, round) {
                tags.clear(hand, &mut hint, tag);
            }
        }
    }
}

/// Each thread holds a fixed number of tags, clears the oldest and gets another in turn. In the end it clears all.
#[derive(Drop)]
pub(crate) struct Ring {
    /// Tags that a thread holds, 1 to 10,240.
    pub hold: u32,
}

impl<T: TagAllocator> Job<T> for Ring {
    #[inline(never)]
    fn work(&self, tags: &T, hand: &mut T::Hand, index: usize, plan: Plan) {
        let mut hint = plan.hint(index);
        let mut ring = [NO_TAG; MOST];
        let held = (self.hold as usize).clamp(1, MOST);
        for tag in ring[..held].iter_mut() {
            *tag = win(tags, hand, &mut hint, 0).unwrap_or(NO_TAG);
        }
        let mut oldest = 0;
        for round in 0..plan.rounds {
            tags.test_and_clear(hand, &mut hint, ring[oldest]);
            ring[oldest] = win(tags, hand, &mut hint, round).unwrap_or(NO_TAG);
            oldest = if oldest + 1 < held { oldest + 1 } else { 0 };
        }
        for &tag in ring[..held].iter() {
            tags.test_and_clear(hand, &mut hint, tag);
        }
    }
}

/// Gets a tag, trying until there is one, and exchanges the value of its slot.
#[inline(always)]
pub(crate) fn win<T: TagAllocator>(
    tags: &T,
    hand: &mut T::Hand,
    hint: &mut Hint,
    value: u32,
) -> Option<u32>
    requires { T.is_own tags.now hand.old }
    ensures hand { T.is_own tags.now hand.new }
    ensures held { IfSome result (T.holds hand.new) }
{
    for _ in 0..PATIENCE {
        match tags.get(hand, hint) {
            Ok(Some(tag)) => {
                tags.touch(hand, tag, value);
                return Some(tag);
            }
            Ok(None) => {}
            Err(_) => return None,
        }
    }
    None
}
