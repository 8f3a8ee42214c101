//! What threads observe while they work.
use crate::tests::answers::Answer;
use std::alloc::{AllocError, Global};
use std::sync::atomic::AtomicU64;
use std::sync::atomic::Ordering::SeqCst;

/// Numbers that all threads of a test add to.
#[derive(Drop)]
pub(crate) struct Tally {
    /// How many tags there are, at most 64.
    pub(crate) count: u32,
    /// Tags won, as the gets returned them.
    pub(crate) won: AtomicU64,
    /// Tags given back.
    pub(crate) back: AtomicU64,
    /// Tags posted.
    pub(crate) posted: AtomicU64,
    /// Posted tags that were taken.
    pub(crate) taken: AtomicU64,
    /// Hands told or waiters woken, as the clears returned them.
    pub(crate) told: AtomicU64,
    /// Whatever should not have happened: a tag won while another thread held it, a slot that did not name the tag's
    /// holder, a call that was refused, sums that do not agree.
    pub(crate) wrong: AtomicU64,
    /// Workers that have finished.
    pub(crate) finished: AtomicU64,
    /// Tags that some thread holds, one bit for each.
    pub(crate) held: AtomicU64,
    /// What the last holder wrote into each tag's slot.
    pub(crate) written: Vec<AtomicU64>,
}

impl Tally {
    /// A tally for this many tags, at most 64.
    pub(crate) fn new(alloc: Global, count: u32) -> Result<Tally, AllocError> {
        let mut written = Vec::new(alloc);
        for _ in 0..count {
            written.push(AtomicU64::new(0))?;
        }
        Ok(Tally {
            count,
            won: AtomicU64::new(0),
            back: AtomicU64::new(0),
            posted: AtomicU64::new(0),
            taken: AtomicU64::new(0),
            told: AtomicU64::new(0),
            wrong: AtomicU64::new(0),
            finished: AtomicU64::new(0),
            held: AtomicU64::new(0),
            written,
        })
    }

    pub(crate) fn check(&self, so: bool) {
        if !so {
            self.wrong.fetch_add(1, SeqCst);
        }
    }

    /// Counts a tag that was won, and checks that no other thread holds it.
    pub(crate) fn wins(&self, tag: u32) {
        self.won.fetch_add(1, SeqCst);
        self.comes(tag);
    }

    /// Counts a posted tag that was taken, and checks that no other thread holds it.
    pub(crate) fn takes(&self, tag: u32) {
        self.taken.fetch_add(1, SeqCst);
        self.comes(tag);
    }

    fn comes(&self, tag: u32) {
        let bit = 1u64 << (tag & 63);
        self.check(self.held.fetch_or(bit, SeqCst) & bit == 0);
    }

    /// Notes that the thread gives the tag up by its next call.
    pub(crate) fn goes(&self, tag: u32) {
        self.held.fetch_and(!(1u64 << (tag & 63)), SeqCst);
    }

    /// Counts tags that were cleared, and how many hands or waiters their clear told.
    pub(crate) fn cleared(&self, tags: u64, answer: Answer) {
        let told = match answer {
            Answer::Told(mask) => u64::from(mask.count_ones()),
            Answer::Woken(woken) => u64::from(woken),
            _ => {
                self.check(false);
                return;
            }
        };
        self.back.fetch_add(tags, SeqCst);
        self.told.fetch_add(told, SeqCst);
    }

    /// Keeps what the holder writes into the tag's slot.
    pub(crate) fn writes(&self, tag: u32, value: u64) {
        if let Some(written) = self.written.get(tag as usize) {
            written.store(value, SeqCst);
        }
    }

    /// Checks that the slot of a tag contains what was written last.
    pub(crate) fn reads(&self, tag: u32, found: Answer) {
        let written = self.written.get(tag as usize).map(|it| it.load(SeqCst));
        self.check(Some(found) == written.map(Answer::Value));
    }
}
