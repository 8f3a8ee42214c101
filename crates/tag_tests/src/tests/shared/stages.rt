//! Stages of a pool, whose first callers may have caches.
use crate::tests::answers::Answer;
use crate::tests::calls::Call;
use crate::tests::shared::callers::Terms;
use crate::tests::shared::parts::Shared;
use crate::tests::stage::Stage;
use crate::tests::steps::Step;
use crate::tests::totals::FILL;
use std::alloc::Global;
use std::process::Abort;
use std::sync::Wait;
use std::test::*;
use tag_cache::Keeping;
use tag_pool::{Options, Pool, Totals};

/// With what a pool is opened for a test.
#[derive(Clone, Copy)]
pub(crate) struct Setting {
    pub(crate) options: Options,
    pub(crate) terms: Terms,
}

/// A pool of so many tags, the first of which are reserved, for so many bare hands.
pub(crate) fn pool(depth: u32, reserved: u32, hands: u32) -> Setting {
    Setting {
        options: Options::new(depth, hands).with_reserved(reserved),
        terms: Terms {
            caches: 0,
            most: 0,
            keeping: Keeping::Always,
        },
    }
}

impl Setting {
    /// The same with words of `2^shift` tags.
    pub(crate) fn in_words(self, shift: u32) -> Setting {
        Setting {
            options: self.options.with_shift(shift),
            ..self
        }
    }

    /// The same, where a hand may win so many tags of each set.
    pub(crate) fn with_life(self, life: u64) -> Setting {
        Setting {
            options: Options {
                life,
                ..self.options
            },
            ..self
        }
    }

    /// The same, where the first callers have caches that keep up to so many tags always.
    pub(crate) fn with_caches(self, caches: u32, most: u32) -> Setting {
        Setting {
            terms: Terms {
                caches,
                most,
                keeping: Keeping::Always,
            },
            ..self
        }
    }

    /// The same, where the caches keep tags only while their user holds another.
    pub(crate) fn careful(self) -> Setting {
        Setting {
            terms: Terms {
                keeping: Keeping::WhileHolding,
                ..self.terms
            },
            ..self
        }
    }
}

impl Stage<Shared> {
    /// Opens a pool whose slots contain `FILL`.
    pub(crate) fn of_pool(alloc: Global, setting: Setting) -> Result<Stage<Shared>, Fail> {
        let (pool, hands) = Pool::open(alloc, setting.options, FILL)?;
        let (shared, callers) = Shared::of(alloc, pool, hands, setting.terms);
        Ok(Stage::of(alloc, shared, callers))
    }

    /// Opens such a pool with its hands placed.
    pub(crate) fn of_pool_placed(alloc: Global, setting: Setting) -> Result<Stage<Shared>, Fail> {
        let (pool, hands) = Pool::open_placed(alloc, setting.options, FILL)?;
        let (shared, callers) = Shared::of(alloc, pool, hands, setting.terms);
        Ok(Stage::of(alloc, shared, callers))
    }
}

/// Opens a pool and makes the calls, which must have the answers beside them.
pub(crate) fn expect<R: Abort + AllocGlobal + Wait>(
    rt: &R,
    setting: Setting,
    said: &[(usize, Call, Answer)],
) -> Result<(), Fail> {
    expect_steps(rt, setting, &[Step::Calls(said)])
}

/// Opens a pool and takes the steps.
pub(crate) fn expect_steps<R: Abort + AllocGlobal + Wait>(
    rt: &R,
    setting: Setting,
    steps: &[Step<'_>],
) -> Result<(), Fail> {
    Stage::of_pool(rt.alloc(), setting)?.play(rt, steps)?;
    Ok(())
}

/// Opens a pool, takes the steps, and gathers the hands. The totals must be these.
pub(crate) fn expect_totals<R: Abort + AllocGlobal + Wait>(
    rt: &R,
    setting: Setting,
    steps: &[Step<'_>],
    totals: Totals,
) -> Result<(), Fail> {
    Stage::of_pool(rt.alloc(), setting)?.play_to(rt, steps, totals)
}
