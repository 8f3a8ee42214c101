//! A map with its callers, for tests of one thread.
ghost use Rattle.std.specs.Prelude.{◌≡◌, All, IfSome};
ghost use Rattle.tag_core.specs.Callers.{IsCallerOf};

use crate::tests::map::callers::opened;
use crate::tests::map::calls::{Answer, Call, act};
use crate::tests::map::resizing::resize;
use std::alloc::Global;
use std::mem::replace;
use std::test::Fail;
use step_ledger::GatherCause;
use tag_core::{Caller, Closed, Map, Settled};
use tag_layout::Layout;

/// A map and its callers, who go by where they stand.
#[derive(Drop)]
pub(crate) struct Stage {
    map: Map<u64>,
    callers: Vec<Caller<u64>>,
    /// Those who are not there when the others come together.
    away: Vec<Caller<u64>>,
    ghost own: { All (λ c. IsCallerOf map c) callers.items },
    ghost own_away: { All (λ c. IsCallerOf map c) away.items },
}

impl Stage {
    /// Four free tags in one word, whose slots are 0.
    pub(crate) fn of_four_tags(alloc: Global, callers: u32, life: u64) -> Result<Stage, Fail> {
        let (map, callers) = opened(alloc, Layout::new(4, Some(2))?, callers, life)?;
        Ok(Stage {
            map,
            callers,
            away: Vec::new(alloc),
        })
    }

    /// Makes a call with the caller who stands there, if anybody does.
    pub(crate) fn act(&mut self, at: usize, call: Call) -> Option<Answer> {
        Some(act(&self.map, self.callers.get_mut(at)?, call))
    }

    /// Makes the calls in order, up to the first whose answer differs from the one expected. Returns the index of that
    /// call and its answer, which is `None` if its caller does not stand there.
    pub(crate) fn wrong(
        &mut self,
        said: &[(usize, Call, Answer)],
    ) -> Option<(usize, Option<Answer>)> {
        for (index, (at, call, answer)) in said.iter().enumerate() {
            let found = self.act(*at, *call);
            if found != Some(*answer) {
                return Some((index, found));
            }
        }
        None
    }

    fn take_last(&mut self) -> Option<Caller<u64>>
        ensures map { self.new.map ≡ self.old.map }
        ensures caller { IfSome result (IsCallerOf self.old.map) }
    {
        self.callers.pop()
    }

    /// The other caller stands there now, and who stood there goes, if anybody did.
    fn trade(&mut self, at: usize, other: Caller<u64>) -> Caller<u64>
        requires { IsCallerOf self.old.map other }
        ensures map { self.new.map ≡ self.old.map }
        ensures caller { IsCallerOf self.old.map result }
    {
        match self.callers.get_mut(at) {
            Some(place) => replace(place, other),
            None => other,
        }
    }

    fn meet_with(&mut self, at: usize, other: &mut Caller<u64>) -> bool
        requires { IsCallerOf self.old.map other.old }
        ensures map { self.new.map ≡ self.old.map }
        ensures caller { IsCallerOf self.old.map other.new }
    {
        match self.callers.get_mut(at) {
            Some(caller) => {
                self.map.meet(caller, other);
                true
            }
            None => false,
        }
    }

    /// The last caller meets another one.
    pub(crate) fn meet(&mut self, at: usize) -> Result<bool, Fail> {
        let Some(mut last) = self.take_last() else {
            return Ok(false);
        };
        let is_there = self.meet_with(at, &mut last);
        self.callers.push(last)?;
        Ok(is_there)
    }

    fn take_out(&mut self, at: usize) -> Option<Caller<u64>>
        ensures map { self.new.map ≡ self.old.map }
        ensures caller { IfSome result (IsCallerOf self.old.map) }
    {
        match self.take_last() {
            Some(last) => Some(self.trade(at, last)),
            None => None,
        }
    }

    /// A caller goes away, and the last one takes its place.
    pub(crate) fn send_away(&mut self, at: usize) -> Result<(), Fail> {
        if let Some(caller) = self.take_out(at) {
            self.away.push(caller)?;
        }
        Ok(())
    }

    /// Who went away last comes back, behind the others.
    pub(crate) fn bring_back(&mut self) -> Result<(), Fail> {
        if let Some(caller) = self.away.pop() {
            self.callers.push(caller)?;
        }
        Ok(())
    }

    /// A caller is lost, and the last one takes its place.
    pub(crate) fn lose(&mut self, at: usize) {
        drop(self.take_out(at));
    }

    /// How many callers are there.
    pub(crate) fn count(&self) -> usize {
        self.callers.len()
    }

    pub(crate) fn gather(self) -> Result<Closed<u64>, (GatherCause, Stage)> {
        let Stage { map, callers, away } = self;
        match map.gather(callers) {
            Ok(closed) => Ok(closed),
            Err(fault) => Err((
                fault.cause,
                Stage {
                    map: fault.map,
                    callers: fault.callers,
                    away,
                },
            )),
        }
    }

    pub(crate) fn close(self) -> Result<Closed<u64>, Fail> {
        match self.gather() {
            Ok(closed) => Ok(closed),
            Err(_) => Err(Fail::new("a caller is missing")),
        }
    }

    pub(crate) fn settle(self) -> Result<Settled<u64>, (GatherCause, Stage)> {
        let Stage { map, callers, away } = self;
        match map.settle(callers) {
            Ok(settled) => Ok(settled),
            Err(fault) => Err((
                fault.cause,
                Stage {
                    map: fault.map,
                    callers: fault.callers,
                    away,
                },
            )),
        }
    }

    /// Who settled goes on with the same map.
    pub(crate) fn back(alloc: Global, settled: Settled<u64>) -> Stage {
        let (map, callers) = settled.back();
        Stage {
            map,
            callers,
            away: Vec::new(alloc),
        }
    }

    pub(crate) fn resize(self, alloc: Global, layout: Layout) -> Result<Stage, Fail> {
        let Stage { map, callers, away } = self;
        drop(away);
        let (map, callers) = resize(alloc, map, callers, layout)?;
        Ok(Stage {
            map,
            callers,
            away: Vec::new(alloc),
        })
    }
}
