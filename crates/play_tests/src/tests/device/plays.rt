//! Logs that are played by threads.

use crate::tests::device::small_log;
use loop_device::{Gate, Io, IoKind, Log, OpenGate, PlayFault, Setup, play};
use std::alloc::{AllocError, Global};
use std::sync::atomic::AtomicU64;
use std::sync::atomic::Ordering::SeqCst;
use std::test::Fail;
use std::thread;

/// The most turns for which a gate holds a thread.
pub(crate) const TURNS: u32 = 10_000_000;

/// Four ordinary tags, and one thread of each role.
pub(crate) const SETUP: Setup = Setup {
    total: 4,
    reserved: 0,
    shift: None,
    submitters: 1,
    completers: 1,
    queue: 4,
};

#[test]
fn a_small_log_is_played(rt: HostRuntime) -> Result<(), Fail> {
    let log = small_log(rt.alloc())?;
    let setup = Setup {
        reserved: 1,
        submitters: 2,
        completers: 2,
        ..SETUP
    };
    let Ok(report) = play(&rt, rt.alloc(), &log, setup, &OpenGate) else {
        return Err(Fail::new("the log was not played"));
    };
    assert_eq!(rt; report.done.len(), 4);
    assert_eq!(rt; (report.totals.got, report.totals.back), (4, 4));
    assert_eq!(rt; (report.totals.held, report.totals.posted), (0, 0));
    Ok(())
}

#[test]
fn an_empty_log_is_played(rt: HostRuntime) -> Result<(), Fail> {
    let log = Log::read(rt.alloc(), b"fio version 2 iolog")?;
    let Ok(report) = play(&rt, rt.alloc(), &log, SETUP, &OpenGate) else {
        return Err(Fail::new("the log was not played"));
    };
    assert_eq!(rt; report.done.len(), 0);
    assert_eq!(rt; (report.totals.got, report.totals.back), (0, 0));
    assert_eq!(rt; (report.totals.held, report.totals.posted), (0, 0));
    Ok(())
}

#[test]
fn illegal_setups(rt: HostRuntime) -> Result<(), Fail> {
    let log = small_log(rt.alloc())?;
    for setup in [
        Setup {
            reserved: 4,
            ..SETUP
        },
        Setup {
            submitters: 0,
            ..SETUP
        },
        Setup {
            submitters: 17,
            ..SETUP
        },
        Setup { queue: 0, ..SETUP },
    ] {
        let played = play(&rt, rt.alloc(), &log, setup, &OpenGate);
        assert!(rt; matches!(played, Err(PlayFault::Setup)));
    }
    Ok(())
}

/// Holds the completion of line 3 until line 5 was submitted.
#[derive(Drop)]
struct HoldsTheFirst {
    submitted: AtomicU64,
    late: AtomicU64,
}

impl Gate for HoldsTheFirst {
    fn after_submit(&self, line: u64) {
        self.submitted.store(line, SeqCst);
    }

    fn before_complete(&self, line: u64) {
        if line != 3 {
            return;
        }
        for _ in 0..TURNS {
            if self.submitted.load(SeqCst) == 5 {
                return;
            }
            thread::yield_now();
        }
        self.late.store(1, SeqCst);
    }
}

/// The log `write`, `write`, `write` on lines 3 to 5.
fn three_writes(alloc: Global) -> Result<Log, AllocError> {
    Ok(Log {
        names: Vec::new(alloc),
        ios: THREE.to_vec(alloc)?,
        waits: 0,
    })
}

const THREE: [Io; 3] = [
    Io {
        line: 3,
        kind: IoKind::Write,
        name: 0,
        offset: 0,
        length: 512,
    },
    Io {
        line: 4,
        kind: IoKind::Write,
        name: 0,
        offset: 512,
        length: 512,
    },
    Io {
        line: 5,
        kind: IoKind::Write,
        name: 0,
        offset: 1_024,
        length: 512,
    },
];

#[test]
fn a_full_queue_holds_no_submitter(rt: HostRuntime) -> Result<(), Fail> {
    let log = three_writes(rt.alloc())?;
    let gate = HoldsTheFirst {
        submitted: AtomicU64::new(0),
        late: AtomicU64::new(0),
    };
    let setup = Setup {
        total: 8,
        queue: 1,
        ..SETUP
    };
    let Ok(report) = play(&rt, rt.alloc(), &log, setup, &gate) else {
        return Err(Fail::new("the log was not played"));
    };
    assert_eq!(rt; gate.late.load(SeqCst), 0);
    assert_eq!(rt; report.done.len(), 3);
    assert_eq!(rt; (report.totals.got, report.totals.back), (3, 3));
    assert_eq!(rt; (report.totals.held, report.totals.posted), (0, 0));
    Ok(())
}
