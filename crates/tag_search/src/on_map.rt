//! Gets and clears by one of the callers of a shared map.
ghost use Rattle.std.specs.Prelude.{◌≡◌, ◌≢◌, ℕ, ◌^◌, ◌↔◌, ◌⊎◌, ◌<◌, ◌≤◌, false, List, IsTrue, IsOk, IfOk, IfErr, IfNone, OnErr, Some, Err};
ghost use Rattle.tag_layout.specs.Layout.{word_bits, word_of, place_of};
ghost use Rattle.tag_core.specs.Callers.{layout_of, IsCallerOf, Holds, Adds};
ghost use Rattle.tag_core.specs.Holding.{HoldsLess};
ghost use Rattle.tag_core.specs.declared.step.Step.TheVariants.{Word};
ghost use Rattle.tag_core.specs.declared.word_step.WordStep.TheVariants.{Give, Put};
ghost use Rattle.tag_core.specs.declared.word_step.WordStep.{WordStep};
ghost use Rattle.tag_search.specs.Batch.{IsBatchGet};
ghost use Rattle.tag_search.specs.Begun.{CanTry, CanFinish, IsBegun, IsRestOfGet, IsWonAtOnce};
ghost use Rattle.tag_search.specs.declared.search.Unfinished.TheVariants.{NotBegun};
ghost use Rattle.tag_search.specs.Exact.{IsExactGet, visits_at};
ghost use Rattle.tag_search.specs.Follows.{HintFollows, BatchFollows, ClearFollows};
ghost use Rattle.tag_search.specs.Freed.{left_free};
ghost use Rattle.tag_search.specs.Gains.{Gains, GainsRun};
ghost use Rattle.tag_search.specs.Gets.{IsGet};
ghost use Rattle.tag_search.specs.Hints.{reduced};
ghost use Rattle.tag_search.specs.Alone.{IsAlone, pool_left, Chooses, ChoosesRun, LeavesPool};
ghost use Rattle.tag_search.specs.Pool.{set_aside, free_at};
ghost use Rattle.tag_search.specs.Shared.{HasRoom, Makes};
ghost use Rattle.tag_search.specs.Vain.{TriesAll, MaySleep};
ghost use Rattle.tag_search.specs.Visits.{plain_visits, shallow_visits};

use crate::found::Found;
use crate::hint::{Hint, after_clear};
use crate::pass::{TURNS, visit};
use crate::place::bit_of;
use crate::rank::Rank;
use crate::search::{self, Unfinished};
use crate::shared::Shared;
use tag_core::{Caller, Map, Spent};

/// Takes a free tag for the caller. `None` means that each place tried was found taken at some moment of the call, not
/// that all were taken at one moment. `Spent` if the caller's life has no room for one more tag.
#[inline(always)]
pub fn get<R>(map: &Map<R>, caller: &mut Caller<R>, hint: &mut Hint) -> Result<Found<u32>, Spent>
    requires caller { IsCallerOf map.now caller.old }
    ensures caller { IsCallerOf map.now caller.new }
    ensures room { IsOk result ↔ HasRoom caller.old 1 }
    ensures gains { IfOk result (λ found. Gains (layout_of map.now) found.answer caller.old caller.new) }
    ensures steps { IfOk result (λ found.
        let l = layout_of map.now in
        let visits = plain_visits l hint.old.round_robin (reduced l.depth hint.old.at) in
        Makes caller.old caller.new (IsGet l visits found.answer)) }

    // A get that found no tag tried each one, and its caller has to see to none, so that it may sleep.
    ensures vain { IfOk result (λ found. IfNone found.answer
        (TriesAll (layout_of map.now) hint.old → MaySleep caller.new)) }

    // If the map has no other caller, the get is the choice over the words that the caller's own steps left.
    ensures alone { IsAlone caller.old → IfOk result (λ found.
        let l = layout_of map.now in
        let visits = plain_visits l hint.old.round_robin (reduced l.depth hint.old.at) in
        Chooses l visits found.answer caller.old caller.new) }
    ensures hint { IfOk result (λ found.
        HintFollows (layout_of map.now).depth hint.old hint.new found.answer) }
    ensures left { IfOk result (λ found. found.left ≡ left_free caller.old caller.new) }
    ensures err { OnErr result ((caller.new ≡ caller.old) × (hint.new ≡ hint.old)) }
{
    if !caller.room(1) {
        return Err(Spent);
    }
    match begin(map, caller, hint) {
        Ok(tag) => Ok(Found {
            answer: Some(tag),
            left: 0,
        }),
        Err(rest) => Ok(finish(map, caller, hint, rest)),
    }
}

/// Begins a get, for which there is room: makes its first try, which is the whole of most gets. `finish` does the rest.
#[inline(always)]
pub fn begin<R>(map: &Map<R>, caller: &mut Caller<R>, hint: &mut Hint) -> Result<u32, Unfinished>
    requires caller { IsCallerOf map.now caller.old }
    requires room { HasRoom caller.old 1 }
    ensures caller { IsCallerOf map.now caller.new }
    ensures won { IfOk result (λ tag. Makes caller.old caller.new (IsWonAtOnce (layout_of map.now) hint.old tag)) }
    ensures hint { IfOk result (λ tag. HintFollows (layout_of map.now).depth hint.old hint.new (Some tag)) }
    ensures begun { IfErr result (λ rest. Makes caller.old caller.new (IsBegun (layout_of map.now) hint.old rest)) }
    ensures rest { IfErr result (CanFinish (layout_of map.now) hint.old) }
    ensures room { OnErr result (HasRoom caller.new 1) }
    ensures unmoved { OnErr result (hint.new ≡ hint.old) }
    ensures tries { CanTry (layout_of map.now) hint.old → IfErr result (λ rest. rest ≢ NotBegun) }
    ensures unchanged { result ≡ Err NotBegun → caller.new ≡ caller.old }
{
    let tag = search::begin(&mut Shared::new(map, caller), hint)?;
    Ok(tag)
}

/// Finishes a get that won nothing at its first try. It is out of line and makes a port of its own: the port of the first
/// try then needs no memory.
#[inline(never)]
pub fn finish<R>(
    map: &Map<R>,
    caller: &mut Caller<R>,
    hint: &mut Hint,
    rest: Unfinished,
) -> Found<u32>
    requires caller { IsCallerOf map.now caller.old }
    requires room { HasRoom caller.old 1 }
    requires rest { CanFinish (layout_of map.now) hint.old rest }
    requires begun { (steps : List WordStep) × IsBegun (layout_of map.now) hint.old rest steps }
    ensures caller { IsCallerOf map.now caller.new }
    ensures steps { Makes caller.old caller.new (IsRestOfGet (layout_of map.now) hint.old rest result.answer) }
    ensures hint { HintFollows (layout_of map.now).depth hint.old hint.new result.answer }
    ensures left { result.left ≡ left_free caller.old caller.new }
{
    let mut port = Shared::new(map, caller);
    let answer = search::finish(&mut port, hint, rest);
    let left = port.left();
    Found { answer, left }
}

/// As `get`, limited to `depth` tags, which are distributed over the words. The share of a word may be 0.
#[inline]
pub fn get_shallow<R>(
    map: &Map<R>,
    caller: &mut Caller<R>,
    hint: &mut Hint,
    depth: u32,
) -> Result<Found<u32>, Spent>
    requires caller { IsCallerOf map.now caller.old }
    ensures caller { IsCallerOf map.now caller.new }
    ensures room { IsOk result ↔ HasRoom caller.old 1 }
    ensures gains { IfOk result (λ found. Gains (layout_of map.now) found.answer caller.old caller.new) }
    ensures steps { IfOk result (λ found.
        let l = layout_of map.now in
        let visits = shallow_visits l depth (reduced l.depth hint.old.at) in
        Makes caller.old caller.new (IsGet l visits found.answer)) }
    ensures alone { IsAlone caller.old → IfOk result (λ found.
        let l = layout_of map.now in
        let visits = shallow_visits l depth (reduced l.depth hint.old.at) in
        Chooses l visits found.answer caller.old caller.new) }
    ensures hint { IfOk result (λ found.
        HintFollows (layout_of map.now).depth hint.old hint.new found.answer) }
    ensures left { IfOk result (λ found. found.left ≡ left_free caller.old caller.new) }
    ensures err { OnErr result ((caller.new ≡ caller.old) × (hint.new ≡ hint.old)) }
{
    let mut port = Shared::new(map, caller);
    let answer = search::get_shallow(&mut port, hint, depth)?;
    let left = port.left();
    Ok(Found { answer, left })
}

/// Takes up to `n` adjacent free tags of one word for the caller. Returns the first tag of the run and the mask of
/// those won, whose lowest bit is that tag. Under round robin it returns `None` without a step.
#[inline]
pub fn get_batch<R>(
    map: &Map<R>,
    caller: &mut Caller<R>,
    hint: &mut Hint,
    n: u32,
) -> Result<Found<(u32, u64)>, Spent>
    requires caller { IsCallerOf map.now caller.old }
    requires count { (1 ≤ n) × (n ≤ word_bits (layout_of map.now)) }
    ensures caller { IsCallerOf map.now caller.new }
    ensures room { IsOk result ↔ (IsTrue hint.old.round_robin ⊎ HasRoom caller.old n) }
    ensures gains { IfOk result (λ found.
        GainsRun (layout_of map.now) found.answer caller.old caller.new) }
    ensures round_robin { IsTrue hint.old.round_robin
        → (result ≡ Ok (record { answer = None; left = 0 })) × (caller.new ≡ caller.old) × (hint.new ≡ hint.old) }
    ensures steps { hint.old.round_robin ≡ false → IfOk result (λ found.
        let l = layout_of map.now in
        let first = word_of l (reduced l.depth hint.old.at) in
        Makes caller.old caller.new (IsBatchGet l n first found.answer)) }
    ensures alone { hint.old.round_robin ≡ false → IsAlone caller.old → IfOk result (λ found.
        let l = layout_of map.now in
        ChoosesRun l n (word_of l (reduced l.depth hint.old.at)) found.answer caller.old caller.new) }
    ensures hint { hint.old.round_robin ≡ false
        → IfOk result (λ found.
        BatchFollows (layout_of map.now).depth n hint.old hint.new found.answer) }
    ensures left { IfOk result (λ found. found.left ≡ left_free caller.old caller.new) }
    ensures err { OnErr result ((caller.new ≡ caller.old) × (hint.new ≡ hint.old)) }
{
    let mut port = Shared::new(map, caller);
    let answer = search::get_batch(&mut port, hint, n)?;
    let left = port.left();
    Ok(Found { answer, left })
}

/// Takes this tag for the caller if it is free, and no other. `None` means that its bit was found set at some moment of the
/// call: some caller held the tag, it was posted, or another caller's sweep was about to free it. A tag that is set aside
/// counts as free: its word is swept, which frees the other tags set aside there too. `Spent` as in `get`.
#[inline]
pub fn get_exactly<R>(map: &Map<R>, caller: &mut Caller<R>, tag: u32) -> Result<Found<u32>, Spent>
    requires caller { IsCallerOf map.now caller.old }
    requires tag { tag < (layout_of map.now).depth }
    ensures caller { IsCallerOf map.now caller.new }
    ensures room { IsOk result ↔ HasRoom caller.old 1 }
    ensures gains { IfOk result (λ found. Gains (layout_of map.now) found.answer caller.old caller.new) }
    ensures steps { IfOk result (λ found.
        Makes caller.old caller.new (IsExactGet (layout_of map.now) tag found.answer)) }

    // If the map has no other caller, the tag is won if it is free or set aside.
    ensures alone { IsAlone caller.old → IfOk result (λ found. let l = layout_of map.now in
        Chooses l (visits_at l tag) found.answer caller.old caller.new) }
    ensures left { IfOk result (λ found. found.left ≡ left_free caller.old caller.new) }
    ensures err { OnErr result (caller.new ≡ caller.old) }
{
    if !caller.room(1) {
        return Err(Spent);
    }
    let layout = map.layout();
    let place = layout.place_of(tag);
    let only = Rank {
        from: place,
        limit: place + 1,
        then: 0,
    };
    let mut port = Shared::new(map, caller);
    let won = visit(&mut port, layout.word_of(tag), only, TURNS);
    let left = port.left();
    let answer = match won {
        Some(_) => Some(tag),
        None => None,
    };
    Ok(Found { answer, left })
}

/// Sets a held tag aside: it is free after the next sweep of its word. The hint moves to the tag, except under round
/// robin.
#[inline]
pub fn put<R>(map: &Map<R>, caller: &mut Caller<R>, hint: &mut Hint, tag: u32)
    requires caller { IsCallerOf map.now caller.old }
    requires held { Holds caller.old tag }
    ensures caller { IsCallerOf map.now caller.new }
    ensures step { let l = layout_of map.now in let word = word_of l tag in let bit = 2 ^ place_of l tag in
        (found : ℕ) × Adds (Word (Put word bit found)) caller.old caller.new }
    ensures released { HoldsLess (λ t. t ≡ tag) caller.old caller.new }
    ensures alone { let l = layout_of map.now in let pool = pool_left caller.old in
        LeavesPool (set_aside (word_of l tag) (place_of l tag) pool) caller.old caller.new }
    ensures hint { ClearFollows tag hint.old hint.new }
{
    map.put(caller, tag);
    after_clear(hint, tag);
}

/// Frees a held tag at once. The hint moves to the tag, except under round robin.
#[inline]
pub fn give<R>(map: &Map<R>, caller: &mut Caller<R>, hint: &mut Hint, tag: u32)
    requires caller { IsCallerOf map.now caller.old }
    requires held { Holds caller.old tag }
    ensures caller { IsCallerOf map.now caller.new }
    ensures step { let l = layout_of map.now in let word = word_of l tag in let bit = 2 ^ place_of l tag in
        (found : ℕ) × Adds (Word (Give word bit found)) caller.old caller.new }
    ensures released { HoldsLess (λ t. t ≡ tag) caller.old caller.new }
    ensures alone { let l = layout_of map.now in let pool = pool_left caller.old in
        LeavesPool (free_at (word_of l tag) (2 ^ place_of l tag) pool) caller.old caller.new }
    ensures hint { ClearFollows tag hint.old hint.new }
{
    let layout = map.layout();
    map.give(caller, layout.word_of(tag), bit_of(layout, tag));
    after_clear(hint, tag);
}
