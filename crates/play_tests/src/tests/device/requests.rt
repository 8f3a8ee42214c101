//! Requests that are completed one at a time.
ghost use Rattle.std.specs.Prelude.{IfOk};
ghost use Rattle.tag_queue.specs.Hands.{IsHandOf};

use crate::tests::device::small_log;
use loop_device::{Gate, PlayFault, Store, complete};
use std::alloc::Global;
use std::sync::Mutex;
use std::sync::atomic::AtomicU64;
use std::sync::atomic::Ordering::SeqCst;
use std::test::Fail;
use tag_queue::{MAX_CAP, Options, Queue, QueueHand, QueueOpenFault, Ring};

/// Records the last line that was about to be carried out.
#[derive(Drop)]
struct Recorder {
    completed: AtomicU64,
}

impl Gate for Recorder {
    fn after_submit(&self, _line: u64) {}

    fn before_complete(&self, line: u64) {
        self.completed.store(line, SeqCst);
    }
}

/// Four ordinary tags with one hand.
pub(crate) fn opened(alloc: Global) -> Result<(Queue<u64>, QueueHand<u64>), QueueOpenFault>
    ensures { IfOk result (λ opened. IsHandOf opened.0 opened.1) }
{
    let (tags, mut hands) = Queue::open(alloc, Options::new(4, 1), MAX_CAP, 0u64)?;
    let Some(hand) = hands.pop() else {
        unreachable!()
    };
    Ok((tags, hand))
}

#[test]
fn a_posted_tag_is_completed_once(rt: HostRuntime) -> Result<(), Fail> {
    let log = small_log(rt.alloc())?;
    let store = Mutex::new(Store::open(rt.alloc()));
    let gate = Recorder {
        completed: AtomicU64::new(0),
    };
    let (tags, mut hand) = opened(rt.alloc())?;
    assert_eq!(rt; tags.get(&mut hand), Ok(Some(0)));
    assert_eq!(rt; tags.write(&mut hand, 0, 4), Ok(0));
    assert_eq!(rt; tags.post(&mut hand, 0), Ok(()));
    assert_eq!(rt;
        complete(&rt, &tags, &mut hand, 0, &log, &store, &gate),
        Ok(4)
    );
    assert_eq!(rt; gate.completed.load(SeqCst), 4);
    assert_eq!(rt; store.lock(&rt).history().len(), 1);
    let again = complete(&rt, &tags, &mut hand, 0, &log, &store, &gate);
    assert_eq!(rt; again, Err(PlayFault::Spurious));
    let beyond = complete(&rt, &tags, &mut hand, 4, &log, &store, &gate);
    assert_eq!(rt; beyond, Err(PlayFault::Spurious));
    assert_eq!(rt; store.lock(&rt).history().len(), 1);
    Ok(())
}

#[test]
fn a_slot_without_an_io_line_is_spurious(rt: HostRuntime) -> Result<(), Fail> {
    let log = small_log(rt.alloc())?;
    let store = Mutex::new(Store::open(rt.alloc()));
    let gate = Recorder {
        completed: AtomicU64::new(0),
    };
    let (tags, mut hand) = opened(rt.alloc())?;
    assert_eq!(rt; tags.get(&mut hand), Ok(Some(0)));
    assert_eq!(rt; tags.write(&mut hand, 0, 3), Ok(0));
    assert_eq!(rt; tags.post(&mut hand, 0), Ok(()));
    let done = complete(&rt, &tags, &mut hand, 0, &log, &store, &gate);
    assert_eq!(rt; done, Err(PlayFault::Spurious));
    assert_eq!(rt; gate.completed.load(SeqCst), 0);
    assert_eq!(rt; store.lock(&rt).history().len(), 0);
    // The tag was cleared, so it can't be cleared again.
    assert!(rt; tags.clear::<Ring>(&mut hand, 0).is_err());
    Ok(())
}
