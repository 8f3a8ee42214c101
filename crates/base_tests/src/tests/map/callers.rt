//! Maps and callers for tests. What a call requires is checked at run time: false and None say that it did not hold,
//! and that nothing was done.
ghost use Rattle.std.specs.Prelude.{◌≡◌, ℕ, ◌<◌, All, IsTrue, IfOk};
ghost use Rattle.tag_core.specs.Callers.{IsCallerOf, Holds};

use std::alloc::Global;
use std::test::Fail;
use tag_core::{Caller, Claim, Closed, MOST_NOTE, Map, Spent};
use tag_layout::Layout;

/// Opens a map of numbers with its callers.
pub(crate) fn opened(
    alloc: Global,
    layout: Layout,
    callers: u32,
    life: u64,
) -> Result<(Map<u64>, Vec<Caller<u64>>), Fail>
    ensures { IfOk result (λ p. All (IsCallerOf p.0) p.1.items) }
{
    let slots = vec![in alloc; 0u64; layout.depth() as usize]?;
    Ok(Map::open(alloc, layout, callers, life, slots)?)
}

/// Gathers all callers.
pub(crate) fn close(map: Map<u64>, callers: Vec<Caller<u64>>) -> Result<Closed<u64>, Fail>
    requires { All (IsCallerOf map) callers.items }
{
    match map.gather(callers) {
        Ok(closed) => Ok(closed),
        Err(_) => Err(Fail::new("a caller is missing")),
    }
}

pub(crate) fn has(map: &Map<u64>, caller: &Caller<u64>, tag: u32) -> bool
    requires { IsCallerOf map.now caller.now }
    ensures { IsTrue result → Holds caller.now tag }
{
    tag < map.layout().depth() && caller.holds(tag)
}

pub(crate) fn claim_bits(
    map: &Map<u64>,
    caller: &mut Caller<u64>,
    word: u32,
    mask: u64,
) -> Option<Result<Claim, Spent>>
    requires { IsCallerOf map.now caller.old }
    ensures { IsCallerOf map.now caller.new }
{
    if word >= map.layout().words() || mask > map.layout().usable(word) {
        return None;
    }
    Some(map.claim(caller, word, mask))
}

pub(crate) fn give_tag(map: &Map<u64>, caller: &mut Caller<u64>, tag: u32) -> bool
    requires { IsCallerOf map.now caller.old }
    ensures { IsCallerOf map.now caller.new }
{
    if !has(map, caller, tag) {
        return false;
    }
    let layout = map.layout();
    map.give(caller, layout.word_of(tag), 1 << layout.place_of(tag));
    true
}

pub(crate) fn put_tag(map: &Map<u64>, caller: &mut Caller<u64>, tag: u32) -> bool
    requires { IsCallerOf map.now caller.old }
    ensures { IsCallerOf map.now caller.new }
{
    if !has(map, caller, tag) {
        return false;
    }
    map.put(caller, tag);
    true
}

pub(crate) fn sweep_word(map: &Map<u64>, caller: &mut Caller<u64>, word: u32) -> bool
    requires { IsCallerOf map.now caller.old }
    ensures { IsCallerOf map.now caller.new }
{
    word < map.layout().words() && map.sweep(caller, word) != 0
}

pub(crate) fn post_tag(map: &Map<u64>, caller: &mut Caller<u64>, tag: u32, note: u64) -> bool
    requires { IsCallerOf map.now caller.old }
    ensures { IsCallerOf map.now caller.new }
{
    if note > MOST_NOTE || !has(map, caller, tag) {
        return false;
    }
    map.post(caller, tag, note);
    true
}

/// The note of a posted tag.
pub(crate) fn read_note(map: &Map<u64>, caller: &mut Caller<u64>, tag: u32) -> Option<u64>
    requires { IsCallerOf map.now caller.old }
    ensures { IsCallerOf map.now caller.new }
{
    if tag >= map.layout().depth() {
        return None;
    }
    map.read_note(caller, tag)
}

pub(crate) fn take_tag(map: &Map<u64>, caller: &mut Caller<u64>, tag: u32) -> bool
    requires { IsCallerOf map.now caller.old }
    ensures { IsCallerOf map.now caller.new }
{
    tag < map.layout().depth() && map.take(caller, tag)
}

/// The value of a held tag's slot before.
pub(crate) fn exchange(map: &Map<u64>, caller: &mut Caller<u64>, tag: u32, new: u64) -> Option<u64>
    requires { IsCallerOf map.now caller.old }
    ensures { IsCallerOf map.now caller.new }
{
    if !has(map, caller, tag) {
        return None;
    }
    Some(map.slot(caller, tag, new))
}

/// The value of a held tag's slot.
pub(crate) fn read(map: &Map<u64>, caller: &mut Caller<u64>, tag: u32) -> Option<u64>
    requires { IsCallerOf map.now caller.old }
    ensures { IsCallerOf map.now caller.new }
{
    if !has(map, caller, tag) {
        return None;
    }
    Some(map.read(caller, tag))
}

/// The word and its cleared set: 1 is taken, and 1 is set aside.
pub(crate) fn look_at(map: &Map<u64>, caller: &mut Caller<u64>, word: u32) -> Option<(u64, u64)>
    requires { IsCallerOf map.now caller.old }
    ensures { IsCallerOf map.now caller.new }
{
    if word >= map.layout().words() {
        return None;
    }
    Some((map.look(caller, word), map.look_aside(caller, word)))
}
