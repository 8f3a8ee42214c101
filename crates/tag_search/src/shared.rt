//! The port to a shared map. Each call is the map's own, made by one of its callers.
ghost use Rattle.std.specs.Prelude.{◌≡◌, ℕ, ◌+◌, ◌-◌, ◌≤◌};
ghost use Rattle.tag_search.specs.Freed.{held_of};

use crate::port::Port;
use tag_core::{Caller, Claim, Map};
use tag_layout::Layout;

/// One caller's access to the words of a map that it shares with other callers.
#[derive(Drop)]
pub struct Shared<'a, R> {
    /// The map.
    map: &'a Map<R>,
    /// The caller that makes the steps.
    caller: &'a mut Caller<R>,
    /// Number of tags that the sweeps through this port freed.
    freed: u64,
    /// The word of the latest sweep that freed tags.
    word: u32,
    /// The tags that it freed, as a mask; 0 before the first.
    mask: u64,
}

impl<'a, R> Shared<'a, R> {
    ghost use Rattle.tag_search.specs.Shared.{latest_of};

    /// Returns a port for `caller`, which is one of the callers of `map`.
    pub fn new(map: &'a Map<R>, caller: &'a mut Caller<R>) -> Shared<'a, R>
        ensures map { result.map.now ≡ map.now }
        ensures caller { result.caller.now ≡ caller.old }
        ensures lent { result.caller.ghost_name ≡ caller.entry.ghost_name }
        ensures freed { result.freed ≡ 0 }
        ensures latest { (result.word ≡ 0) × (result.mask ≡ 0) }
    {
        Shared {
            map,
            caller,
            freed: 0,
            word: 0,
            mask: 0,
        }
    }

    /// Returns how many tags the sweeps through this port freed, less those of the latest sweep that the caller holds.
    #[inline]
    pub fn left(&self) -> u64
        ensures { result ≡ self.now.freed - held_of self.now.caller.now (latest_of self.now) }
    {
        if self.freed == 0 {
            return 0;
        }
        let held = self.mask & self.caller.held_in(self.word);
        self.freed.saturating_sub(held.count_ones() as u64)
    }
}

impl<R> Port for Shared<'_, R> {
    ghost use Rattle.tag_core.specs.Callers.{layout_of, IsCallerOf, record_of};
    ghost use Rattle.tag_search.specs.Shared.{AddsThrough};
    ghost use Rattle.tag_search.specs.SharedLaws.{through_nothing, through_more};

    ghost sizes = { λ p. layout_of p.map.now };

    ghost ready = { λ p. IsCallerOf p.map.now p.caller.now };

    ghost has_room = { λ p n. (record_of p.caller.now).won + n ≤ (record_of p.caller.now).shape.life };

    ghost adds = { AddsThrough };

    ghost adds_none = { through_nothing };

    ghost adds_more = { through_more };

    #[inline]
    fn layout(&self) -> Layout {
        self.map.layout()
    }

    #[inline]
    fn room(&self, n: u32) -> bool {
        self.caller.room(n)
    }

    #[inline]
    fn look(&mut self, word: u32) -> u64 {
        self.map.look(self.caller, word)
    }

    #[inline]
    fn claim(&mut self, word: u32, mask: u64, asked: u32) -> Claim {
        self.map.claim_counted(self.caller, word, mask, asked)
    }

    #[inline]
    fn claim_one(&mut self, word: u32, place: u32) -> Result<(), u64> {
        self.map.claim_one(self.caller, word, place)
    }

    #[inline]
    fn sweep(&mut self, word: u32) -> u64 {
        if self.map.look_aside(self.caller, word) == 0 {
            return 0;
        }
        let mask = self.map.sweep(self.caller, word);
        if mask == 0 {
            return 0;
        }
        self.freed = self.freed.saturating_add(mask.count_ones() as u64);
        self.word = word;
        self.mask = mask;
        mask
    }

    #[inline]
    fn sweep_keeping(&mut self, word: u32) -> Option<u32> {
        let seen = self.map.look_aside(self.caller, word);
        if seen == 0 {
            return None;
        }
        let kept = self.map.keep_least(self.caller, word)?;
        if kept.rest != 0 {
            self.freed = self.freed.saturating_add(kept.rest.count_ones() as u64);
            self.word = word;
            self.mask = kept.rest;
        }
        Some(kept.place)
    }
}
