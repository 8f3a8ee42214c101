//! A port of plain words that counts the steps made through it.
ghost use Rattle.std.specs.Prelude.{ℕ, ◌<◌};

use std::alloc::Global;
use std::test::Fail;
use tag_core::Claim;
use tag_layout::Layout;
use tag_search::{PlainPort, Port};

/// A plain port that counts its atomic steps.
#[derive(Drop)]
pub(crate) struct Counting {
    pub(crate) port: PlainPort,
    /// Number of steps so far: loads, claims, swaps and spills.
    pub(crate) steps: u64,
}

impl Port for Counting {
    ghost use Rattle.tag_search.specs.Plain.{RunsAlone};
    ghost use Rattle.tag_search.specs.PlainLaws.{runs_nothing, runs_on};

    ghost sizes = { λ p. p.port.layout };

    ghost ready = { λ _. Unit {0} };

    ghost has_room = { λ _ _. Unit {0} };

    ghost adds = { λ p xs q. RunsAlone p.port xs q.port };

    ghost adds_none = { λ p. runs_nothing p.port };

    ghost adds_more = { λ p q r xs ys a b. runs_on p.port q.port r.port xs ys a b };

    fn layout(&self) -> Layout {
        self.port.layout()
    }

    fn room(&self, n: u32) -> bool {
        self.port.room(n)
    }

    fn look(&mut self, word: u32) -> u64 {
        self.steps = self.steps.wrapping_add(1);
        self.port.look(word)
    }

    fn claim(&mut self, word: u32, mask: u64, asked: u32) -> Claim {
        self.steps = self.steps.wrapping_add(1);
        self.port.claim(word, mask, asked)
    }

    fn claim_one(&mut self, word: u32, place: u32) -> Result<(), u64> {
        self.steps = self.steps.wrapping_add(1);
        self.port.claim_one(word, place)
    }

    fn sweep(&mut self, word: u32) -> u64 {
        let mask = self.port.sweep(word);
        self.steps = self.steps.wrapping_add(if mask == 0 { 1 } else { 3 });
        mask
    }

    fn sweep_keeping(&mut self, word: u32) -> Option<u32> {
        let aside = self.port.look_aside(word).count_ones();
        let kept = self.port.sweep_keeping(word);
        self.steps = self.steps.wrapping_add(1 + aside.min(2) as u64);
        kept
    }
}

/// Plain words of which nothing is taken.
pub(crate) fn fresh(alloc: Global, depth: u32, shift: u32) -> Result<Counting, Fail> {
    let port = PlainPort::open(alloc, Layout::new(depth, Some(shift))?)?;
    Ok(Counting { port, steps: 0 })
}
