//! Reopening: the callers of a map that has ended go on with a new one.
ghost use Rattle.std.specs.Prelude.{◌≡◌, ℕ, ◌+◌, ◌-◌, ◌<◌, ◌≤◌, [], length, replicate, map, All, IfOk, IfErr, slice_index};
ghost use mathlib.Core.Option.{some};
ghost use lib.ListN.{get_elem?};
ghost use Rattle.step_ledger.specs.Views.{viewing};
ghost use Rattle.step_ledger.specs.Gather.{Has};
ghost use Rattle.tag_layout.specs.Layout.{words};
ghost use Rattle.tag_layout.specs.declared.layout.TheConstants.{MAX_DEPTH};
ghost use Rattle.tag_model.specs.declared.world.TheConstants.{MAX_CALLERS};
ghost use Rattle.tag_core.specs.Callers.{IsCallerOf, record_of, HaveOwnNumbers};
ghost use Rattle.tag_core.specs.Gathering.{numbers_of};
ghost use Rattle.tag_core.specs.Reopening.{reopened_record, IsNext, HasCounts, AreReopened, GoesOnFrom, AllFree};
ghost use Rattle.tag_core.specs.Views.{fresh, all_fresh};

use crate::caller::Caller;
use crate::map::Map;
use crate::opens::{new_map, none_held};
use crate::record::View;
use crate::settled::Settled;
use crate::shape::{COUNTS, Shape};
use crate::spots::first_state;
use atomic_table::Seat;
use std::alloc::{AllocError, Global};
use std::snapshot::Snapshot;
use step_ledger::{HandOut, index_of};
use tag_layout::Layout;

/// For each caller, an empty mask for each word.
fn spare_masks(alloc: Global, count: usize, words: usize) -> Result<Vec<Vec<u64>>, AllocError>
    requires { words ≤ MAX_DEPTH }
    ensures { IfOk result (λ masks. (length masks.items ≡ count) × All (λ m. m.items ≡ replicate words 0) masks.items) }
{
    let mut masks = Vec::new(alloc);
    for _ in 0..count {
        let mask = none_held(alloc, words)?;
        if masks.push(mask).is_err() {
            return Err(AllocError);
        }
    }
    Ok(masks)
}

/// The shape of the next map: each caller starts with the counts that it has now.
fn next_shape<R>(shape: &Shape, callers: &[Caller<R>], layout: Layout) -> Shape
    requires few { shape.now.callers ≤ MAX_CALLERS }
    requires below { (i : ℕ) (c : Caller R) → get_elem? callers.now i ≡ some c → c.number < shape.now.callers }
    requires once { HaveOwnNumbers callers.now }
    ensures next { IsNext layout shape.now result }
    ensures counts { HasCounts callers.now result }
    ensures rest { (c : ℕ) → shape.now.callers ≤ c → slice_index result.won_before.value c ≡ 0 }
{
    let mut won = [0; COUNTS];
    let mut back = [0; COUNTS];
    for caller in callers {
        won[caller.number as usize] = caller.won;
        back[caller.number as usize] = caller.back;
    }
    Shape {
        layout,
        callers: shape.callers,
        life: shape.life,
        won_before: Snapshot::of(&won),
        back_before: Snapshot::of(&back),
    }
}

/// Moves a caller to the next map, from the seat that has its record there and those of greater numbers.
fn reseat<R>(tags: &Map<R>, rest: &mut Seat<R, View<R>>, caller: &mut Caller<R>, held: Vec<u64>)
    requires number { caller.old.number < tags.now.shape.callers }
    requires seat { rest.old.table_id ≡ tags.now.table.shared.table_id }
    requires rest { rest.old.me ≡ (viewing (fresh tags.now.shape caller.old.number (tags.now.shape.callers - caller.old.number)), []) }
    requires counts { (slice_index tags.now.shape.won_before.value caller.old.number ≡ caller.old.won)
        × (slice_index tags.now.shape.back_before.value caller.old.number ≡ caller.old.back) }
    requires life { caller.old.life ≡ tags.now.shape.life }
    requires held { held.items ≡ replicate (words tags.now.shape.layout) 0 }
    ensures caller { IsCallerOf tags.now caller.new × (record_of caller.new ≡ reopened_record tags.now.shape (record_of caller.old)) }
    ensures rest { (rest.new.table_id ≡ rest.old.table_id)
        × (rest.new.me ≡ (viewing (fresh tags.now.shape (caller.old.number + 1) (tags.now.shape.callers - (caller.old.number + 1))), [])) }
{
    caller.seat = tags.table.shared.split_seat::<HandOut>(rest);
    caller.layout = tags.shape.layout;
    caller.states = first_state(caller.layout);
    caller.held = held;
    caller.shape = Snapshot::of(&tags.shape);
}

/// Moves all callers to the next map, in their order.
fn reseat_all<R>(
    tags: &Map<R>,
    mut rest: Seat<R, View<R>>,
    callers: &mut Vec<Caller<R>>,
    mut masks: Vec<Vec<u64>>,
)
    requires seat { (rest.table_id ≡ tags.now.table.shared.table_id) × (rest.me ≡ (all_fresh tags.now.shape, [])) }
    requires every { (n : ℕ) → n < tags.now.shape.callers → ¬ (¬ (Has (numbers_of callers.old.items) n)) }
    requires once { HaveOwnNumbers callers.old.items }
    requires below { (i : ℕ) (c : Caller R) → get_elem? callers.old.items i ≡ some c → c.number < tags.now.shape.callers }
    requires life { (i : ℕ) (c : Caller R) → get_elem? callers.old.items i ≡ some c → c.life ≡ tags.now.shape.life }
    requires counts { HasCounts callers.old.items tags.now.shape }
    requires masks { (length masks.items ≡ tags.now.shape.callers)
        × All (λ m. m.items ≡ replicate (words tags.now.shape.layout) 0) masks.items }
    ensures { AreReopened tags.now callers.old.items callers.new.items }
{
    for number in 0..tags.shape.callers {
        let Some(i) = index_of(callers.as_slice(), number) else {
            unreachable!()
        };
        let Some(held) = masks.pop() else {
            unreachable!()
        };
        reseat(tags, &mut rest, &mut callers[i], held);
    }
}

/// What the next map is made with: its shape, and an empty mask for each word and caller.
fn prepare<R>(
    alloc: Global,
    settled: &Settled<R>,
    layout: Layout,
) -> Result<(Shape, Vec<Vec<u64>>), AllocError>
    ensures next { IfOk result (λ p. IsNext layout settled.now.tags.shape p.0) }
    ensures counts { IfOk result (λ p. HasCounts settled.now.callers.items p.0) }
    ensures rest { IfOk result (λ p. (c : ℕ) → settled.now.tags.shape.callers ≤ c → slice_index p.0.won_before.value c ≡ 0) }
    ensures masks { IfOk result (λ p. (length p.1.items ≡ settled.now.tags.shape.callers)
        × All (λ m. m.items ≡ replicate (words layout) 0) p.1.items) }
{
    let shape = next_shape(&settled.tags.shape, settled.callers.as_slice(), layout);
    let masks = spare_masks(alloc, shape.callers as usize, layout.words() as usize)?;
    Ok((shape, masks))
}

impl<R: Drop> Settled<R> {
    /// Opens a new map of free tags for the same callers, who keep their counts of tags won and given back. It fails
    /// only if memory runs out, and then returns everything it was given, unchanged.
    pub fn reopen(
        self,
        alloc: Global,
        layout: Layout,
        slots: Vec<R>,
    ) -> Result<(Map<R>, Vec<Caller<R>>), (Settled<R>, Vec<R>)>
        requires unused { (self.totals.held ≡ 0) × (self.totals.posted ≡ 0) }
        requires slots { length slots.items ≡ layout.depth }
        ensures next { IfOk result (λ p. IsNext layout self.tags.shape p.0.shape) }
        ensures goes_on { IfOk result (λ p. GoesOnFrom self p.0.shape) }
        ensures callers { IfOk result (λ p. AreReopened p.0 self.callers.items p.1.items) }
        ensures own { IfOk result (λ p. All (IsCallerOf p.0) p.1.items) }
        ensures free { IfOk result (λ p. AllFree p.0.shape (map record_of p.1.items)) }
        ensures err { IfErr result (λ e. (e.0 ≡ self) × (e.1.items ≡ slots.items)) }
    {
        let Ok((shape, masks)) = prepare(alloc, &self, layout) else {
            return Err((self, slots));
        };
        let (map, rest) = match new_map(alloc, shape, slots) {
            Ok(made) => made,
            Err(slots) => return Err((self, slots)),
        };
        let Settled {
            tags,
            mut callers,
            totals: _,
        } = self;
        reseat_all(&map, rest, &mut callers, masks);
        drop(tags);
        Ok((map, callers))
    }
}
