//! A world: where each tag is, and what each caller has won and given back.
ghost use Rattle.std.specs.Prelude.{◌≡◌, ℕ, ◌<◌, ◌≤◌, [], ◌∷◌, IfOk, IfErr, OnOk, OnErr, IsOk, length, take, slice_index, slice_set, ◌+◌, ◌^◌, sum};
ghost use Rattle.refusals.specs.Refusals.{RefusesOrRunsOut};
ghost use Rattle.tag_model.specs.World.{opened};
ghost use Rattle.tag_model.specs.Kept.{callers_of, world_of, CanHappen, HasFault, Happens, CanRun, Stops, Ran, HasTotals, IsInRoom};

use crate::entries::Entries;
use crate::event::{Event, EventFault};
use crate::place::Place;
use crate::totals::Totals;
use std::alloc::{AllocError, Global};
use std::marker::Model;
use tag_layout::Layout;

/// The most callers of one world.
pub const MAX_CALLERS: u32 = 64;

/// The most tags that one caller may win: 2^48.
pub const MOST_WON: u64 = 281_474_976_710_656;

/// Why there is no such world.
#[derive(Clone, Copy, Debug, PartialEq, Eq)]
pub enum ModelFault {
    /// There was no memory for it.
    Memory,
    /// No caller, or more than `MAX_CALLERS`.
    CallerCount,
}

/// Where each tag is, and how many tags each caller has won and given back.
#[derive(Drop)]
pub struct World {
    entries: Entries,
    /// Tags that each caller has won, at most `MOST_WON`.
    won: Vec<u64>,
    /// Tags that each caller has put or given back, its own or others' that it took.
    back: Vec<u64>,
}

impl Model for World {
    ghost use Rattle.tag_model.specs.Kept.{KeptWorld, IsSound};

    ghost Value = { KeptWorld };

    ghost view = { λ w. record { layout = w.entries.layout; places = w.entries.places; won = w.won.items; back = w.back.items } };

    ghost invariant = { λ w. IsSound (record { layout = w.entries.layout; places = w.entries.places; won = w.won.items; back = w.back.items }) };
}

impl World {
    /// Opens a world in which all tags are free, for 1 to `MAX_CALLERS` callers. `CallerCount` means that their number
    /// is out of range; `Memory` comes last.
    pub fn open(alloc: Global, layout: Layout, callers: u32) -> Result<World, ModelFault>
        ensures layout { IfOk result (λ w. w.layout ≡ layout) }
        ensures callers { IfOk result (λ w. callers_of w ≡ callers) }
        ensures all_free { IfOk result (λ w. world_of w ≡ opened) }
        ensures refusals { RefusesOrRunsOut (((1 ≤ callers) × (callers ≤ MAX_CALLERS), ModelFault.CallerCount) ∷ [])
            ModelFault.Memory result }
    {
        if callers == 0 || callers > MAX_CALLERS {
            return Err(ModelFault::CallerCount);
        }
        match World::all_free(alloc, layout, callers) {
            Ok(world) => Ok(world),
            Err(_) => Err(ModelFault::Memory),
        }
    }

    fn all_free(alloc: Global, layout: Layout, callers: u32) -> Result<World, AllocError>
        requires { (1 ≤ callers) × (callers ≤ MAX_CALLERS) }
        ensures layout { IfOk result (λ w. w.layout ≡ layout) }
        ensures callers { IfOk result (λ w. callers_of w ≡ callers) }
        ensures all_free { IfOk result (λ w. world_of w ≡ opened) }
    {
        Ok(World {
            entries: Entries::open(alloc, layout)?,
            won: vec![in alloc; 0; callers as usize]?,
            back: vec![in alloc; 0; callers as usize]?,
        })
    }

    /// Where the tag is.
    pub fn place(&self, tag: u32) -> Place
        requires { tag < self.now.layout.depth }
        ensures { result ≡ (world_of self.now).place tag }
    {
        self.entries.place(tag)
    }

    /// The sums over all callers and tags.
    pub fn totals(&self) -> Totals
        ensures sums { HasTotals self.now result }
        ensures balance { result.got ≡ result.back + result.held + result.posted }
    {
        Totals {
            got: sum_of(&self.won),
            back: sum_of(&self.back),
            held: self.entries.held(),
            posted: self.entries.posted(),
        }
    }

    /// One event. A fault leaves the world as it was.
    pub fn apply(&mut self, event: Event) -> Result<(), EventFault>
        ensures ok { OnOk result (Happens self.old event self.new) }
        ensures succeeds { CanHappen self.old event → IsOk result }

        // Which fault it is: the first of its causes.
        ensures fault { IfErr result (HasFault self.old event) }
        ensures err { OnErr result (self.new ≡ self.old) }
    {
        self.test(event)?;
        if !self.entries.bring(event) {
            return Err(event.missing());
        }
        add_at(&mut self.won, event.caller(), event.won());
        add_at(&mut self.back, event.caller(), event.back());
        Ok(())
    }

    /// Events one after another, up to the first that can't happen: its index in the list, from 0, and its fault.
    /// The world then stands after the events before it.
    pub fn run(&mut self, events: &[Event]) -> Result<Totals, (usize, EventFault)>
        ensures ok { OnOk result (Ran self.old events.now self.new) }
        ensures totals { IfOk result (HasTotals self.new) }
        ensures succeeds { CanRun self.old events.now → IsOk result }
        ensures fault { IfErr result (λ e. Stops self.old events.now e.0 e.1) }
        ensures stopped { IfErr result (λ e. Ran self.old (take e.0 events.now) self.new) }
    {
        for (index, event) in events.iter().enumerate() {
            if let Err(fault) = self.apply(*event) {
                return Err((index, fault));
            }
        }
        Ok(self.totals())
    }

    /// Checks the numbers that the event names and its caller's room, but not where its tags are.
    fn test(&self, event: Event) -> Result<(), EventFault>
        ensures ok { OnOk result (IsInRoom self.now event) }
        ensures fault { IfErr result (HasFault self.now event) }
    {
        if !event.is_in(self.entries.layout()) {
            return Err(EventFault::NoSuchTag);
        }
        let caller = event.caller() as usize;
        if caller >= self.won.len() {
            return Err(EventFault::NoSuchCaller);
        }
        if self.won[caller] + u64::from(event.won()) > MOST_WON {
            return Err(EventFault::Spent);
        }
        Ok(())
    }
}

/// More at one caller's count.
fn add_at(counts: &mut [u64], caller: u32, more: u32)
    requires caller { caller < length counts.old }
    requires room { slice_index counts.old caller + more < 2 ^ 64 }
    ensures { counts.new ≡ slice_set counts.old caller (slice_index counts.old caller + more) }
{
    let at = caller as usize;
    let count = counts[at] + u64::from(more);
    counts[at] = count;
}

fn sum_of(counts: &[u64]) -> u64
    requires { sum counts.now < 2 ^ 64 }
    ensures { result ≡ sum counts.now }
{
    counts.iter().sum()
}
