//! A thread's handle with the tags that it keeps for itself.
ghost use Rattle.std.specs.Prelude.{◌≡◌, ℕ, ◌+◌, ◌<◌, ◌≤◌, ◌^◌, count_ones};
ghost use Rattle.tag_cache.specs.declared.cache.TheConstants.{MOST_REUSED};
ghost use Rattle.tag_cache.specs.declared.keeping.Keeping.TheVariants.{WhileHolding};
ghost use Rattle.tag_cache.specs.Windows.{IsIn, AreOwn};

use crate::keeping::Keeping;
use tag_pool::Hand;

/// Length of the window, and so the most tags that a cache keeps.
pub(crate) const WINDOW: u32 = 64;

/// How many kept tags are handed out again before a cache keeps no more: 2^56.
pub(crate) const MOST_REUSED: u64 = 1 << 56;

/// One thread's hand on tags, and which of the tags that the hand holds are kept for later gets. All kept tags are
/// ordinary, and in a window of 64 numbers. The user does not hold a kept tag; for the tag sets the hand still does.
#[derive(Drop)]
pub struct Cache<R> {
    /// The first number of the window.
    pub(crate) first: u32,
    /// The most tags to be kept, 0 to 64.
    pub(crate) most: u32,
    /// How many more may be kept. A clear tests this number, as counting the kept ones takes a processor without such
    /// an instruction 20 others.
    pub(crate) room: u32,
    pub(crate) keeping: Keeping,
    /// Which tags of the window are kept: bit 0 is the first one, and 1 is kept.
    pub(crate) kept: u64,
    /// Which ordinary tags of the window the user is known to hold, and so need no test: bit 0 is the first one.
    pub(crate) known: u64,
    /// Number of kept tags that were handed out again.
    pub(crate) reused: u64,
    /// Must be the last field: a hand ends with padding, so that caches that are adjacent in memory share no cache line.
    pub(crate) hand: Hand<R>,
    ghost own: { AreOwn hand first kept },
    ghost knows: { AreOwn hand first known },
    ghost apart: { (tag : ℕ) → IsIn first kept tag → ¬ (IsIn first known tag) },
    ghost wide: { (kept < 2 ^ 64) × (known < 2 ^ 64) },
    ghost low: { first < 2 ^ 31 },
    ghost few: { (room + count_ones kept ≡ most) × (most ≤ 64) },
    ghost alive: { reused + count_ones kept ≤ MOST_REUSED + 64 },
    ghost careful: { keeping ≡ WhileHolding → 0 < kept → 0 < known },
}

impl<R> Cache<R> {
    ghost use Rattle.std.specs.Prelude.{min};
    ghost use Rattle.tag_cache.specs.Caches.{hand_of, most_of, keeping_of, reused_of, KeepsNone};

    /// A cache that keeps no tag, and later up to `most` of them, at most 64, as `Keeping::Always` says.
    pub fn new(hand: Hand<R>, most: u32) -> Cache<R>
        ensures hand { hand_of result ≡ hand }
        ensures none { KeepsNone result }
        ensures most { most_of result ≡ min most 64 }
        ensures keeping { keeping_of result ≡ Keeping.Always }
        ensures reused { reused_of result ≡ 0 }
    {
        Cache::with_keeping(hand, most, Keeping::Always)
    }

    /// Like `new`, but tags are kept as `keeping` says.
    pub fn with_keeping(hand: Hand<R>, most: u32, keeping: Keeping) -> Cache<R>
        ensures hand { hand_of result ≡ hand }
        ensures none { KeepsNone result }
        ensures most { most_of result ≡ min most 64 }
        ensures keeping { keeping_of result ≡ keeping }
        ensures reused { reused_of result ≡ 0 }
    {
        let most = most.min(WINDOW);
        Cache {
            first: 0,
            most,
            room: most,
            keeping,
            kept: 0,
            known: 0,
            reused: 0,
            hand,
        }
    }
}
