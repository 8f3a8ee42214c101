//! Gets: the search for a free tag, from a caller's hint.
ghost use Rattle.std.specs.Prelude.{◌≡◌, ◌↔◌, ◌⊎◌, ◌<◌, ◌≤◌, ◌+◌, ◌-◌, ◌≢◌, All, false, IsTrue, IsOk, IfOk, IfErr, IfSome, OnErr, Some, Err};
ghost use Rattle.tag_layout.specs.Layout.{word_bits, word_depth, word_of, words};
ghost use Rattle.tag_search.specs.Added.{AddsSteps, SameRoom};
ghost use Rattle.tag_search.specs.declared.search.Unfinished.TheVariants.{NotBegun};
ghost use Rattle.tag_search.specs.Begun.{visits_from, CanTry, CanFinish, MissesFirst, IsBegun, IsRestOfGet, IsWonAtOnce};
ghost use Rattle.tag_search.specs.Tries.{left_to_try, Completes};
ghost use Rattle.tag_search.specs.Gets.{IsGet};
ghost use Rattle.tag_search.specs.Batch.{IsBatchGet};
ghost use Rattle.tag_search.specs.Hints.{reduced};
ghost use Rattle.tag_search.specs.Follows.{HintFollows, BatchFollows};
ghost use Rattle.tag_search.specs.Visits.{plain_visits, shallow_visits};

use crate::all_places::search_after;
use crate::batch::search_run;
use crate::hint::Hint;
use crate::pass::Missed;
use crate::place::first_free;
use crate::port::Port;
use crate::rank::Rank;
use crate::scan::Scan;
use tag_core::Spent;
use tag_layout::Layout;

/// Takes a free tag for the caller. `None` means that each place tried was found taken at some moment of the call, not
/// that all were taken at one moment. `Spent` if the port has no room for one more tag.
#[inline(always)]
pub fn get<P: Port>(port: &mut P, hint: &mut Hint) -> Result<Option<u32>, Spent>
    requires port { P.ready port.old }
    ensures port { P.ready port.new }
    ensures sizes { P.sizes port.new ≡ P.sizes port.old }
    ensures room { IsOk result ↔ P.has_room port.old 1 }
    ensures tag { IfOk result (λ answer. IfSome answer (λ tag. tag < (P.sizes port.old).depth)) }
    ensures steps { IfOk result (λ answer.
        let l = P.sizes port.old in
        let from = reduced l.depth hint.old.at in
        AddsSteps P.adds port.old port.new (IsGet l (plain_visits l hint.old.round_robin from) answer)) }
    ensures hint { IfOk result (λ answer. HintFollows (P.sizes port.old).depth hint.old hint.new answer) }
    ensures err { OnErr result ((port.new ≡ port.old) × (hint.new ≡ hint.old)) }
{
    if !port.room(1) {
        return Err(Spent);
    }
    match begin(port, hint) {
        Ok(tag) => Ok(Some(tag)),
        Err(rest) => Ok(finish(port, hint, rest)),
    }
}

/// What a get has still to do after `begin`.
pub enum Unfinished {
    /// All of it: no try was made.
    NotBegun,
    /// What follows a pass that found the hint's word full.
    Full,
    /// What follows a lost claim in the hint's word, from the next place on, in the word as that claim found it.
    Lost { from: u32, found: u64 },
}

/// Begins a get: tries the first clear place of the hint's word, and moves the hint if it won it. That is the whole of
/// most gets, so `finish` stays out of line. Where the hint is not below the depth, and under round robin, it makes no
/// try.
#[inline(always)]
pub(crate) fn begin<P: Port>(port: &mut P, hint: &mut Hint) -> Result<u32, Unfinished>
    requires port { P.ready port.old }
    requires room { P.has_room port.old 1 }
    ensures port { P.ready port.new }
    ensures sizes { P.sizes port.new ≡ P.sizes port.old }
    ensures room { OnErr result (SameRoom P.has_room port.old port.new) }
    ensures tag { IfOk result (λ tag. tag < (P.sizes port.old).depth) }
    ensures won { IfOk result (λ tag. AddsSteps P.adds port.old port.new (IsWonAtOnce (P.sizes port.old) hint.old tag)) }
    ensures hint { IfOk result (λ tag. HintFollows (P.sizes port.old).depth hint.old hint.new (Some tag)) }
    ensures begun { IfErr result (λ rest. AddsSteps P.adds port.old port.new (IsBegun (P.sizes port.old) hint.old rest)) }
    ensures rest { IfErr result (CanFinish (P.sizes port.old) hint.old) }
    ensures unmoved { OnErr result (hint.new ≡ hint.old) }
    ensures tries { CanTry (P.sizes port.old) hint.old → IfErr result (λ rest. rest ≢ NotBegun) }
    ensures unchanged { result ≡ Err NotBegun → port.new ≡ port.old }
{
    let layout = port.layout();
    let before = *hint;
    if before.at >= layout.depth() || before.round_robin {
        return Err(Unfinished::NotBegun);
    }
    let word = layout.word_of(before.at);
    let found = port.look(word);
    let Some(place) = first_free(layout, word, found) else {
        return Err(Unfinished::Full);
    };
    if let Err(found) = port.claim_one(word, place) {
        let from = place + 1;
        return Err(Unfinished::Lost { from, found });
    }
    let tag = layout.tag_at(word, place);
    hint.follow_win(layout.depth(), tag);
    Ok(tag)
}

/// Finishes a get that `begin` did not.
#[inline(always)]
pub(crate) fn finish<P: Port>(port: &mut P, hint: &mut Hint, rest: Unfinished) -> Option<u32>
    requires port { P.ready port.old }
    requires room { P.has_room port.old 1 }
    requires rest { CanFinish (P.sizes port.old) hint.old rest }
    ensures port { P.ready port.new }
    ensures sizes { P.sizes port.new ≡ P.sizes port.old }
    ensures tag { IfSome result (λ tag. tag < (P.sizes port.old).depth) }
    ensures steps { AddsSteps P.adds port.old port.new (IsRestOfGet (P.sizes port.old) hint.old rest result) }
    ensures hint { HintFollows (P.sizes port.old).depth hint.old hint.new result }
{
    let layout = port.layout();
    match rest {
        Unfinished::NotBegun => get_by_scan(port, hint, layout),
        Unfinished::Full => finish_try(port, hint, layout, Missed::Full),
        Unfinished::Lost { from, found } => {
            let limit = layout.word_depth(layout.word_of(hint.at));
            let rest = Rank {
                from,
                limit,
                then: 0,
            };
            finish_try(port, hint, layout, Missed::Lost { rest, found })
        }
    }
}

/// Finishes a get whose first try missed.
#[inline(always)]
fn finish_try<P: Port>(port: &mut P, hint: &mut Hint, layout: Layout, missed: Missed) -> Option<u32>
    requires port { P.ready port.old }
    requires layout { P.sizes port.old ≡ layout }
    requires room { P.has_room port.old 1 }
    requires hint { CanTry layout hint.old }
    requires places { All (λ place. place < word_depth layout (word_of layout hint.old.at)) (left_to_try missed) }
    ensures port { P.ready port.new }
    ensures sizes { P.sizes port.new ≡ P.sizes port.old }
    ensures tag { IfSome result (λ tag. tag < layout.depth) }
    ensures steps { AddsSteps P.adds port.old port.new
        (Completes (MissesFirst layout hint.old missed) (IsGet layout (visits_from layout hint.old) result)) }
    ensures hint { HintFollows layout.depth hint.old hint.new result }
{
    let before = *hint;
    let answer = search_after(port, layout, layout.word_of(before.at), missed);
    hint.at = before.after_get(layout.depth(), before.at, answer);
    answer
}

/// Makes a get from any hint, with round robin or without.
#[inline(never)]
fn get_by_scan<P: Port>(port: &mut P, hint: &mut Hint, layout: Layout) -> Option<u32>
    requires port { P.ready port.old }
    requires layout { P.sizes port.old ≡ layout }
    requires room { P.has_room port.old 1 }
    ensures port { P.ready port.new }
    ensures sizes { P.sizes port.new ≡ P.sizes port.old }
    ensures tag { IfSome result (λ tag. tag < (P.sizes port.old).depth) }
    ensures steps { let l = P.sizes port.old in
        let from = reduced l.depth hint.old.at in
        AddsSteps P.adds port.old port.new (IsGet l (plain_visits l hint.old.round_robin from) result) }
    ensures hint { HintFollows (P.sizes port.old).depth hint.old hint.new result }
{
    let from = hint.reduced(layout.depth());
    let answer = Scan::plain(layout, hint.round_robin, from).search(port);
    hint.follow(layout.depth(), from, answer);
    answer
}

/// As `get`, limited to `depth` tags, which are distributed over the words. The share of a word may be 0.
pub fn get_shallow<P: Port>(port: &mut P, hint: &mut Hint, depth: u32) -> Result<Option<u32>, Spent>
    requires port { P.ready port.old }
    ensures port { P.ready port.new }
    ensures sizes { P.sizes port.new ≡ P.sizes port.old }
    ensures room { IsOk result ↔ P.has_room port.old 1 }
    ensures tag { IfOk result (λ answer. IfSome answer (λ tag. tag < (P.sizes port.old).depth)) }
    ensures steps { IfOk result (λ answer.
        let l = P.sizes port.old in
        let from = reduced l.depth hint.old.at in
        AddsSteps P.adds port.old port.new (IsGet l (shallow_visits l depth from) answer)) }
    ensures hint { IfOk result (λ answer. HintFollows (P.sizes port.old).depth hint.old hint.new answer) }
    ensures err { OnErr result ((port.new ≡ port.old) × (hint.new ≡ hint.old)) }
{
    if !port.room(1) {
        return Err(Spent);
    }
    let layout = port.layout();
    let from = hint.reduced(layout.depth());
    let answer = Scan::shallow(layout, depth, from).search(port);
    hint.follow(layout.depth(), from, answer);
    Ok(answer)
}

/// Takes up to `n` adjacent free tags of one word. Returns the first tag of the run and the mask of those won, whose
/// lowest bit is that tag. Under round robin it returns `None` without a step.
pub fn get_batch<P: Port>(
    port: &mut P,
    hint: &mut Hint,
    n: u32,
) -> Result<Option<(u32, u64)>, Spent>
    requires port { P.ready port.old }
    requires count { (1 ≤ n) × (n ≤ word_bits (P.sizes port.old)) }
    ensures port { P.ready port.new }
    ensures sizes { P.sizes port.new ≡ P.sizes port.old }
    ensures room { IsOk result ↔ (IsTrue hint.old.round_robin ⊎ P.has_room port.old n) }
    ensures tags { IfOk result (λ answer. IfSome answer (λ won. won.0 + n ≤ (P.sizes port.old).depth)) }
    ensures round_robin { IsTrue hint.old.round_robin → (result ≡ Ok None) × (port.new ≡ port.old) × (hint.new ≡ hint.old) }
    ensures steps { hint.old.round_robin ≡ false → IfOk result (λ answer.
        let l = P.sizes port.old in
        AddsSteps P.adds port.old port.new (IsBatchGet l n (word_of l (reduced l.depth hint.old.at)) answer)) }
    ensures hint { hint.old.round_robin ≡ false → IfOk result (λ answer. BatchFollows (P.sizes port.old).depth n hint.old hint.new answer) }
    ensures err { OnErr result ((port.new ≡ port.old) × (hint.new ≡ hint.old)) }
{
    if hint.round_robin {
        return Ok(None);
    }
    if !port.room(n) {
        return Err(Spent);
    }
    let layout = port.layout();
    let from = hint.reduced(layout.depth());
    let answer = search_run(port, layout, n, from >> layout.shift());
    match answer {
        Some((tag, _)) => hint.follow(layout.depth(), from, Some(tag + n - 1)),
        None => hint.at = from,
    }
    Ok(answer)
}
