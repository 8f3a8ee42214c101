//! What threads do with tags that they share.
use crate::tests::allocator::TagAllocator;
use crate::tests::answers::Answer;
use crate::tests::calls::Call;
use crate::tests::jobs::everything::{do_everything, keep};
use crate::tests::jobs::waits::{
    clear_for_a_waiter, clear_once, wait_for_a_tag, wait_for_one_clear, wait_on_and_off,
};
use crate::tests::tally::Tally;
use std::sync::Wait;
use std::sync::atomic::AtomicU64;
use std::sync::atomic::Ordering::SeqCst;
use std::thread;

mod everything;
mod waits;

/// What the threads of a test do.
#[derive(Clone, Copy)]
pub(crate) enum Job {
    /// The workers make these calls in turn, and spend the tags that they win; `Take` stands for taking and clearing
    /// every posted tag, `WaitInVain` for a wait that is given up. The last thread clears what is posted and what it
    /// gets until they have finished, so that none of them sleeps forever.
    Everything([Call; 8]),
    /// The workers make this call, and clear the tag that they win; at the end they give back what they keep. A
    /// thread beyond them begins and ends a wait until they have finished.
    Gets(Call),
    /// The workers make this call, and then a get; they clear what the get won first. At the end they give back what
    /// they keep.
    Pairs(Call),
    /// The workers make this call, wait until each of them has its tag, and then clear it. There is a tag for each,
    /// so that none of them may sleep for long.
    Meet(Call),
    /// One thread gets tag 0, and clears it once the other one waits for it.
    PassOn,
    /// In each round one thread gets tag 0 by the first call and clears it, and the other gets it by the second, which
    /// waits, at about the same time. Nobody else would wake a thread that sleeps although the tag is free.
    OneClear(Call, Call),
}

/// A job, for how many workers, and how often each of them acts.
#[derive(Clone, Copy)]
pub(crate) struct Plan {
    pub(crate) job: Job,
    pub(crate) workers: usize,
    pub(crate) rounds: u32,
}

/// Plays the part of the thread with this number in a plan.
pub(crate) fn play<R: Wait, T: TagAllocator>(
    rt: &R,
    tags: &T,
    caller: &mut T::Caller,
    tally: &Tally,
    plan: Plan,
    number: usize,
)
    requires { T.is_own tags.now caller.old }
    ensures { T.is_own tags.now caller.new }
{
    let works = number < plan.workers;
    match plan.job {
        Job::Everything(calls) if works => do_everything(
            rt,
            tags,
            caller,
            tally,
            calls,
            plan.rounds,
            number,
        ),
        Job::Everything(_) => keep(rt, tags, caller, tally, plan.workers),
        Job::Gets(call) if works => get_and_clear(rt, tags, caller, tally, call, plan.rounds),
        Job::Gets(_) => wait_on_and_off(rt, tags, caller, tally, plan.workers),
        Job::Pairs(call) => get_two(rt, tags, caller, tally, call, plan.rounds),
        Job::Meet(call) => meet(rt, tags, caller, tally, call, plan),
        Job::PassOn if works => clear_for_a_waiter(rt, tags, caller, tally),
        Job::PassOn => wait_for_a_tag(rt, tags, caller, tally),
        Job::OneClear(get, _) if works => clear_once(rt, tags, caller, tally, get, plan.rounds),
        Job::OneClear(_, wait) => wait_for_one_clear(rt, tags, caller, tally, wait, plan.rounds),
    }
}

/// Makes a get of one tag, and clears the tag if it won one. A refusal is counted as wrong.
pub(crate) fn win_and_clear<R: Wait, T: TagAllocator>(
    rt: &R,
    tags: &T,
    caller: &mut T::Caller,
    tally: &Tally,
    call: Call,
)
    requires { T.is_own tags.now caller.old }
    ensures { T.is_own tags.now caller.new }
{
    match tags.act(rt, caller, call).won() {
        Answer::Tag(tag) => {
            tally.wins(tag);
            tally.goes(tag);
            tally.cleared(1, tags.act(rt, caller, Call::Clear(tag)));
        }
        Answer::Nothing => (),
        _ => tally.check(false),
    }
}

/// Makes a get of one tag in each round, and clears the tag if it won one. It gives back what it keeps at the end.
fn get_and_clear<R: Wait, T: TagAllocator>(
    rt: &R,
    tags: &T,
    caller: &mut T::Caller,
    tally: &Tally,
    call: Call,
    rounds: u32,
)
    requires { T.is_own tags.now caller.old }
    ensures { T.is_own tags.now caller.new }
{
    for _ in 0..rounds {
        win_and_clear(rt, tags, caller, tally, call);
    }
    tally.cleared(0, tags.act(rt, caller, Call::Flush));
    tally.finished.fetch_add(1, SeqCst);
}

/// Makes a call that wins a tag, and wins and clears another by a get before it clears the first.
fn win_two<R: Wait, T: TagAllocator>(
    rt: &R,
    tags: &T,
    caller: &mut T::Caller,
    tally: &Tally,
    call: Call,
)
    requires { T.is_own tags.now caller.old }
    ensures { T.is_own tags.now caller.new }
{
    match tags.act(rt, caller, call).won() {
        Answer::Tag(tag) => {
            tally.wins(tag);
            win_and_clear(rt, tags, caller, tally, Call::Get);
            tally.goes(tag);
            tally.cleared(1, tags.act(rt, caller, Call::Clear(tag)));
        }
        _ => tally.check(false),
    }
}

/// Holds up to two tags in each round, and gives back what it keeps at the end.
fn get_two<R: Wait, T: TagAllocator>(
    rt: &R,
    tags: &T,
    caller: &mut T::Caller,
    tally: &Tally,
    call: Call,
    rounds: u32,
)
    requires { T.is_own tags.now caller.old }
    ensures { T.is_own tags.now caller.new }
{
    for _ in 0..rounds {
        win_two(rt, tags, caller, tally, call);
    }
    tally.cleared(0, tags.act(rt, caller, Call::Flush));
}

/// Wins a tag in each round, and clears it once as many tags were won as there are workers. It gives back what it
/// keeps at the end.
fn meet<R: Wait, T: TagAllocator>(
    rt: &R,
    tags: &T,
    caller: &mut T::Caller,
    tally: &Tally,
    call: Call,
    plan: Plan,
)
    requires { T.is_own tags.now caller.old }
    ensures { T.is_own tags.now caller.new }
{
    let mut wins = 0u64;
    for _ in 0..plan.rounds {
        wins = wins.wrapping_add(plan.workers as u64);
        match tags.act(rt, caller, call).won() {
            Answer::Tag(tag) => {
                tally.wins(tag);
                wait_until(rt, &tally.won, wins);
                tally.goes(tag);
                tally.cleared(1, tags.act(rt, caller, Call::Clear(tag)));
            }
            _ => tally.check(false),
        }
    }
    tally.cleared(0, tags.act(rt, caller, Call::Flush));
}

/// Waits until a count has come to this number.
pub(crate) fn wait_until<R: Wait>(rt: &R, count: &AtomicU64, number: u64) {
    for _ in rt.forever() {
        if count.load(SeqCst) >= number {
            break;
        }
        thread::yield_now();
    }
}
