//! Running out of memory. These tests must also pass with any one allocation refused (`rt try --test --fail-alloc N`).

use crate::tests::device::plays::SETUP;
use crate::tests::device::requests::opened;
use crate::tests::device::{SMALL, done, small_log};
use loop_device::{Log, LogCause, OpenGate, PlayFault, Store, complete, play, verdict};
use std::sync::Mutex;
use std::test::Fail;
use tag_queue::Ring;

#[test]
fn want_of_memory_is_told_of_a_log(rt: HostRuntime) {
    match Log::read(rt.alloc(), b"fio version 2 iolog\na add\na write 0 512\n") {
        Ok(log) => assert_eq!(rt; log.ios.len(), 1),
        Err(fault) => assert_eq!(rt; fault.cause, LogCause::Memory),
    }
}

#[test]
fn want_of_memory_is_told_of_a_verdict(rt: HostRuntime) {
    let Ok(log) = small_log(rt.alloc()) else {
        return;
    };
    let each = [
        done(SMALL[0]),
        done(SMALL[1]),
        done(SMALL[2]),
        done(SMALL[3]),
    ];
    if let Err(fault) = verdict(rt.alloc(), &log, &each) {
        assert_eq!(rt; fault, PlayFault::Memory);
        assert_eq!(rt; verdict(rt.alloc(), &log, &each), Ok(()));
    }
}

#[test]
fn want_of_memory_is_told_of_a_request(rt: HostRuntime) -> Result<(), Fail> {
    let Ok(log) = small_log(rt.alloc()) else {
        return Ok(());
    };
    let Ok((tags, mut hand)) = opened(rt.alloc()) else {
        return Ok(());
    };
    let store = Mutex::new(Store::open(rt.alloc()));
    assert_eq!(rt; tags.get(&mut hand), Ok(Some(0)));
    assert_eq!(rt; tags.write(&mut hand, 0, 5), Ok(0));
    assert_eq!(rt; tags.post(&mut hand, 0), Ok(()));
    match complete(&rt, &tags, &mut hand, 0, &log, &store, &OpenGate) {
        Ok(line) => assert_eq!(rt; line, 5),
        Err(fault) => {
            assert_eq!(rt; fault, PlayFault::Memory);
            assert_eq!(rt; store.lock(&rt).history().len(), 0);
        }
    }
    // The tag was cleared whatever became of its line.
    assert!(rt; tags.clear::<Ring>(&mut hand, 0).is_err());
    Ok(())
}

#[test]
fn want_of_memory_is_told_of_a_play(rt: HostRuntime) -> Result<(), Fail> {
    let Ok(log) = small_log(rt.alloc()) else {
        return Ok(());
    };
    match play(&rt, rt.alloc(), &log, SETUP, &OpenGate) {
        Ok(report) => assert_eq!(rt; report.done.len(), 4),
        Err(fault) => assert_eq!(rt; fault, PlayFault::Memory),
    }
    Ok(())
}
