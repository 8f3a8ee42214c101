//! Workers that make eight calls in turn, and who keeps them going.
ghost use Rattle.std.specs.Prelude.{◌≤◌};

use crate::tests::allocator::TagAllocator;
use crate::tests::answers::Answer;
use crate::tests::calls::Call;
use crate::tests::jobs::win_and_clear;
use crate::tests::tally::Tally;
use std::sync::Wait;
use std::sync::atomic::Ordering::SeqCst;

/// Counts a tag that was won, and writes its slot.
fn mark<R: Wait, T: TagAllocator>(
    rt: &R,
    tags: &T,
    caller: &mut T::Caller,
    tally: &Tally,
    tag: u32,
    value: u64,
)
    requires { T.is_own tags.now caller.old }
    ensures { T.is_own tags.now caller.new }
{
    tally.wins(tag);
    match tags.act(rt, caller, Call::Write(tag, value)) {
        Answer::Value(_) => tally.writes(tag, value),
        _ => tally.check(false),
    }
}

/// Marks a tag, reads its slot again after another call, and then posts or clears the tag. `value / 8` counts the turns
/// through the eight calls.
fn spend<R: Wait, T: TagAllocator>(
    rt: &R,
    tags: &T,
    caller: &mut T::Caller,
    tally: &Tally,
    tag: u32,
    value: u64,
)
    requires { T.is_own tags.now caller.old }
    ensures { T.is_own tags.now caller.new }
{
    mark(rt, tags, caller, tally, tag, value);
    if value / 8 % 8 == 1 {
        tally.check(tags.act(rt, caller, Call::Agrees(tag)) == Answer::Held(true));
    }
    tally.check(tags.act(rt, caller, Call::Read(tag)) == Answer::Value(value));
    tally.goes(tag);
    if value / 8 % 4 == 0 {
        tally.posted.fetch_add(1, SeqCst);
        tally.check(tags.act(rt, caller, Call::Post(tag)) == Answer::Done);
        return;
    }
    tally.cleared(1, tags.act(rt, caller, Call::Clear(tag)));
}

/// Returns the tags of a batch of up to three, and how many they are.
fn tags_of(first: u32, mask: u64) -> ([u32; 3], usize)
    ensures { result.1 ≤ 3 }
{
    let mut won = [0u32; 3];
    let mut count = 0usize;
    for place in 0..3u32 {
        if mask >> place & 1 == 1 {
            won[count] = first.wrapping_add(place);
            count += 1;
        }
    }
    (won, count)
}

/// Marks the tags of a batch, and clears them at once.
fn spend_batch<R: Wait, T: TagAllocator>(
    rt: &R,
    tags: &T,
    caller: &mut T::Caller,
    tally: &Tally,
    won: &[u32],
    value: u64,
)
    requires { T.is_own tags.now caller.old }
    ensures { T.is_own tags.now caller.new }
{
    for tag in won {
        mark(rt, tags, caller, tally, *tag, value);
    }
    for tag in won {
        tally.check(tags.act(rt, caller, Call::Read(*tag)) == Answer::Value(value));
        tally.goes(*tag);
    }
    tally.cleared(won.len() as u64, tags.clear_batch(caller, won));
}

/// Takes each posted tag, whose slot names who posted it, and clears it.
fn take_posted<R: Wait, T: TagAllocator>(rt: &R, tags: &T, caller: &mut T::Caller, tally: &Tally)
    requires { T.is_own tags.now caller.old }
    ensures { T.is_own tags.now caller.new }
{
    for tag in 0..tally.count {
        if tags.act(rt, caller, Call::Take(tag)) == Answer::Done {
            tally.takes(tag);
            tally.reads(tag, tags.act(rt, caller, Call::Read(tag)));
            tally.goes(tag);
            tally.cleared(1, tags.act(rt, caller, Call::Clear(tag)));
        }
    }
}

/// Makes a call, and spends the tags that it won. A caller holds no tag when it makes a call that may sleep.
fn win_and_spend<R: Wait, T: TagAllocator>(
    rt: &R,
    tags: &T,
    caller: &mut T::Caller,
    tally: &Tally,
    call: Call,
    value: u64,
)
    requires { T.is_own tags.now caller.old }
    ensures { T.is_own tags.now caller.new }
{
    match tags.act(rt, caller, call).won() {
        Answer::Tag(tag) => spend(rt, tags, caller, tally, tag, value),
        Answer::Batch(first, mask) => {
            let (won, count) = tags_of(first, mask);
            spend_batch(rt, tags, caller, tally, &won[..count], value);
        }
        Answer::Nothing => (),
        _ => tally.check(false),
    }
}

pub(crate) fn do_everything<R: Wait, T: TagAllocator>(
    rt: &R,
    tags: &T,
    caller: &mut T::Caller,
    tally: &Tally,
    calls: [Call; 8],
    rounds: u32,
    number: usize,
)
    requires { T.is_own tags.now caller.old }
    ensures { T.is_own tags.now caller.new }
{
    tags.act(rt, caller, Call::Place);
    for round in 0..rounds {
        match calls[(round % 8) as usize] {
            Call::Take(_) => take_posted(rt, tags, caller, tally),
            Call::WaitInVain => {
                tally.check(tags.act(rt, caller, Call::WaitInVain).is_granted());
            }
            call => {
                let value = ((number as u64) << 32) | u64::from(round);
                win_and_spend(rt, tags, caller, tally, call, value);
            }
        }
    }
    tally.finished.fetch_add(1, SeqCst);
}

/// Clears what is posted and what it gets until the workers have finished, so that none of them sleeps forever.
pub(crate) fn keep<R: Wait, T: TagAllocator>(
    rt: &R,
    tags: &T,
    caller: &mut T::Caller,
    tally: &Tally,
    workers: usize,
)
    requires { T.is_own tags.now caller.old }
    ensures { T.is_own tags.now caller.new }
{
    for _ in rt.forever() {
        let last = tally.finished.load(SeqCst) == workers as u64;
        take_posted(rt, tags, caller, tally);
        if last {
            break;
        }
        win_and_clear(rt, tags, caller, tally, Call::Get);
    }
}
