//! A new map, and its callers.
ghost use Rattle.std.specs.Prelude.{◌≡◌, ◌+◌, ◌-◌, ◌<◌, ◌≤◌, ◌≢◌, [], ◌∷◌, length, replicate, All, IfOk, IfErr};
ghost use Rattle.refusals.specs.Refusals.{RefusesOrRunsOut};
ghost use Rattle.step_ledger.specs.Views.{viewing};
ghost use Rattle.tag_layout.specs.declared.layout.TheConstants.{MAX_DEPTH};
ghost use Rattle.tag_model.specs.declared.world.TheConstants.{MAX_CALLERS, MOST_WON};
ghost use Rattle.tag_core.specs.Records.{fresh_record, StartsAtZero};
ghost use Rattle.tag_core.specs.Views.{fresh, all_fresh};
ghost use Rattle.tag_core.specs.Rule.{IsOpening};
ghost use Rattle.tag_core.specs.Chain.{HasChain};
ghost use Rattle.tag_core.specs.Opening.{IsNew, AreNew};
ghost use Rattle.tag_core.specs.Callers.{IsCallerOf, record_of};

use crate::caller::{APART, Caller};
use crate::map::Map;
use crate::record::View;
use crate::shape::{COUNTS, Shape};
use crate::spots::{first_state, table_words};
use atomic_table::{Seat, Table};
use std::alloc::{AllocError, Global};
use std::snapshot::Snapshot;
use step_ledger::{HandOut, MemberSource, hand_out};
use tag_layout::Layout;
use tag_model::{MAX_CALLERS, MOST_WON};

/// Why a map cannot be opened.
#[derive(Clone, Copy, Debug, PartialEq, Eq)]
pub enum OpenFault {
    /// Out of memory.
    Memory,
    /// The number of callers is not 1 to 64.
    CallerCount,
    /// The life is above 2^48 tags.
    LifeTooLong,
    /// The number of slots is not the number of tags.
    SlotCount,
}

/// An empty mask for each word, in a block of memory that shares no cache line with another caller's.
pub(crate) fn none_held(alloc: Global, words: usize) -> Result<Vec<u64>, AllocError>
    requires { words ≤ MAX_DEPTH }
    ensures { IfOk result (λ held. held.items ≡ replicate words 0) }
{
    let mut held = Vec::with_capacity(alloc, words + APART)?;
    held.resize(words, 0u64)?;
    Ok(held)
}

impl<R> MemberSource for Map<R> {
    type Member = Caller<R>;

    type Rest = Seat<R, View<R>>;

    ghost count_of = { λ map. map.shape.callers };

    ghost has_rest = { λ map number rest. StartsAtZero map.shape × (rest.table_id ≡ map.table.shared.table_id)
        × (rest.me ≡ (viewing (fresh map.shape number (map.shape.callers - number)), [])) };

    ghost is_new = { λ map number caller. IsCallerOf map caller × (record_of caller ≡ fresh_record map.shape number) };

    fn next_member(
        &self,
        alloc: Global,
        rest: &mut Seat<R, View<R>>,
        number: u32,
    ) -> Result<Caller<R>, AllocError> {
        let layout = self.shape.layout;
        let held = none_held(alloc, layout.words() as usize)?;
        let seat = self.table.shared.split_seat::<HandOut>(rest);
        Ok(Caller {
            seat,
            layout,
            states: first_state(layout),
            number,
            life: self.shape.life,
            held,
            won: 0,
            back: 0,
            shape: Snapshot::of(&self.shape),
            apart: [0; APART],
        })
    }
}

/// A map of this shape with all tags free, and the seat that has the records of all its callers. The slots come back if
/// memory runs out.
pub(crate) fn new_map<R: Drop>(
    alloc: Global,
    shape: Shape,
    slots: Vec<R>,
) -> Result<(Map<R>, Seat<R, View<R>>), Vec<R>>
    requires limits { (1 ≤ shape.callers) × (shape.callers ≤ MAX_CALLERS) × (shape.life ≤ MOST_WON) }
    requires slots { length slots.items ≡ shape.layout.depth }
    requires opening { IsOpening shape }
    requires chain { HasChain R shape }
    ensures map { IfOk result (λ p. p.0.shape ≡ shape) }
    ensures seat { IfOk result (λ p. (p.1.table_id ≡ p.0.table.shared.table_id) × (p.1.me ≡ (all_fresh shape, []))) }
    ensures err { IfErr result (λ s. s.items ≡ slots.items) }
{
    let Ok(room) = Vec::with_capacity(alloc, shape.layout.depth() as usize) else {
        return Err(slots);
    };
    let Ok(words) = vec![in alloc; 0u64; table_words(shape.layout)] else {
        return Err(slots);
    };
    match Table::new(alloc, words.as_slice(), slots, &shape) {
        Ok((table, rest)) => Ok((Map { table, shape, room }, rest)),
        Err(refused) => Err(refused.slots),
    }
}

/// A map and its callers, after the arguments were tested: only want of memory refuses it.
fn lay_out<R: Drop>(
    alloc: Global,
    shape: Shape,
    slots: Vec<R>,
) -> Result<(Map<R>, Vec<Caller<R>>), AllocError>
    requires limits { (1 ≤ shape.callers) × (shape.callers ≤ MAX_CALLERS) × (shape.life ≤ MOST_WON) }
    requires slots { length slots.items ≡ shape.layout.depth }
    requires blank { StartsAtZero shape }
    ensures new { IfOk result (λ p. (p.0.shape ≡ shape) × AreNew p.0 p.1.items) }
    ensures own { IfOk result (λ p. All (IsCallerOf p.0) p.1.items) }
{
    let Ok((map, rest)) = new_map(alloc, shape, slots) else {
        return Err(AllocError);
    };
    let callers = hand_out(alloc, &map, rest, map.shape.callers)?;
    Ok((map, callers))
}

impl<R: Drop> Map<R> {
    /// Opens a map of free tags, each with a slot, for 1 to 64 callers, each of which may win at most `life` tags. The
    /// causes are tested in this order: `CallerCount`, not 1 to 64 callers; `LifeTooLong`, a life above 2^48;
    /// `SlotCount`, not one slot for each tag; `Memory`. The slots are dropped then.
    pub fn open(
        alloc: Global,
        layout: Layout,
        callers: u32,
        life: u64,
        slots: Vec<R>,
    ) -> Result<(Map<R>, Vec<Caller<R>>), OpenFault>
        ensures map { IfOk result (λ p. IsNew layout callers life p.0) }
        ensures callers { IfOk result (λ p. AreNew p.0 p.1.items) }
        ensures own { IfOk result (λ p. All (IsCallerOf p.0) p.1.items) }

        ensures refusals { RefusesOrRunsOut (((1 ≤ callers) × (callers ≤ MAX_CALLERS), OpenFault.CallerCount)
            ∷ (life ≤ MOST_WON, OpenFault.LifeTooLong) ∷ (length slots.items ≡ layout.depth, OpenFault.SlotCount) ∷ [])
            OpenFault.Memory result }
    {
        if callers == 0 || callers > MAX_CALLERS {
            return Err(OpenFault::CallerCount);
        }
        if life > MOST_WON {
            return Err(OpenFault::LifeTooLong);
        }
        if slots.len() != layout.depth() as usize {
            return Err(OpenFault::SlotCount);
        }
        let none = [0; COUNTS];
        let shape = Shape {
            layout,
            callers,
            life,
            won_before: Snapshot::of(&none),
            back_before: Snapshot::of(&none),
        };
        match lay_out(alloc, shape, slots) {
            Ok(opened) => Ok(opened),
            Err(_) => Err(OpenFault::Memory),
        }
    }
}
