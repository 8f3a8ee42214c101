//! Plays in which a gate holds one thread until another has gone on.

use crate::tests::device::plays::{SETUP, TURNS};
use loop_device::{Gate, Log, LogFault, Setup, play};
use std::alloc::Global;
use std::sync::atomic::AtomicBool;
use std::sync::atomic::Ordering::SeqCst;
use std::test::Fail;
use std::thread;

/// For how many turns a completion is held while nothing is to happen.
const IDLE_TURNS: u32 = 10_000;

/// For how many turns the queue is empty while more is to come.
const EMPTY_TURNS: u32 = 100_000;

/// A log with I/O on lines 3 and 4.
fn two_writes(alloc: Global) -> Result<Log, LogFault> {
    Log::read(
        alloc,
        b"fio version 2 iolog\na add\na write 0 512\na write 512 512\n",
    )
}

/// Which calls of the gate have begun, and whether a hold failed.
#[derive(Drop)]
struct Began {
    submits: [AtomicBool; 2],
    completes: [AtomicBool; 2],
    failed: AtomicBool,
}

impl Began {
    fn none() -> Began {
        Began {
            submits: [AtomicBool::new(false), AtomicBool::new(false)],
            completes: [AtomicBool::new(false), AtomicBool::new(false)],
            failed: AtomicBool::new(false),
        }
    }

    /// Holds the caller until the mark is set, and fails if it isn't by the last turn.
    fn hold_until(&self, mark: &AtomicBool) {
        for _ in 0..TURNS {
            if mark.load(SeqCst) {
                return;
            }
            thread::yield_now();
        }
        self.failed.store(true, SeqCst);
    }
}

/// The mark of this line.
fn mark_of(marks: &[AtomicBool; 2], line: u64) -> &AtomicBool {
    if line == 3 { &marks[0] } else { &marks[1] }
}

/// The mark of the other line.
fn mark_beside(marks: &[AtomicBool; 2], line: u64) -> &AtomicBool {
    if line == 3 { &marks[1] } else { &marks[0] }
}

/// Holds the submitter of line 3 until its completion begins, and that completion until line 4 was submitted.
#[derive(Drop)]
struct Crossing(Began);

impl Gate for Crossing {
    fn after_submit(&self, line: u64) {
        mark_of(&self.0.submits, line).store(true, SeqCst);
        if line == 3 {
            self.0.hold_until(mark_of(&self.0.completes, 3));
        }
    }

    fn before_complete(&self, line: u64) {
        mark_of(&self.0.completes, line).store(true, SeqCst);
        if line == 3 {
            self.0.hold_until(mark_of(&self.0.submits, 4));
        }
    }
}

/// Holds each thread until another has come as far with the other line.
#[derive(Drop)]
struct SideBySide(Began);

impl Gate for SideBySide {
    fn after_submit(&self, line: u64) {
        mark_of(&self.0.submits, line).store(true, SeqCst);
        self.0.hold_until(mark_beside(&self.0.submits, line));
    }

    fn before_complete(&self, line: u64) {
        mark_of(&self.0.completes, line).store(true, SeqCst);
        self.0.hold_until(mark_beside(&self.0.completes, line));
    }
}

/// Holds the first completion for all its turns, and fails if the other line was submitted meanwhile.
#[derive(Drop)]
struct OneAtATime(Began);

impl Gate for OneAtATime {
    fn after_submit(&self, line: u64) {
        mark_of(&self.0.submits, line).store(true, SeqCst);
    }

    fn before_complete(&self, line: u64) {
        mark_of(&self.0.completes, line).store(true, SeqCst);
        if mark_beside(&self.0.completes, line).load(SeqCst) {
            return;
        }
        for _ in 0..IDLE_TURNS {
            thread::yield_now();
        }
        if mark_beside(&self.0.submits, line).load(SeqCst) {
            self.0.failed.store(true, SeqCst);
        }
    }
}

/// Holds the submitter of line 3 after its completion began, for turns in which the completer finds an empty queue.
#[derive(Drop)]
struct EmptyForAWhile(Began);

impl Gate for EmptyForAWhile {
    fn after_submit(&self, line: u64) {
        if line == 3 {
            self.0.hold_until(mark_of(&self.0.completes, 3));
            for _ in 0..EMPTY_TURNS {
                thread::yield_now();
            }
        }
    }

    fn before_complete(&self, line: u64) {
        mark_of(&self.0.completes, line).store(true, SeqCst);
    }
}

#[test]
fn a_submitter_goes_on_while_a_completer_is_held(rt: HostRuntime) -> Result<(), Fail> {
    let log = two_writes(rt.alloc())?;
    let gate = Crossing(Began::none());
    let played = play(&rt, rt.alloc(), &log, SETUP, &gate);
    assert!(rt; played.is_ok());
    assert!(rt; !gate.0.failed.load(SeqCst));
    Ok(())
}

#[test]
fn two_threads_of_each_role_go_on_together(rt: HostRuntime) -> Result<(), Fail> {
    let log = two_writes(rt.alloc())?;
    let gate = SideBySide(Began::none());
    let setup = Setup {
        submitters: 2,
        completers: 2,
        ..SETUP
    };
    let played = play(&rt, rt.alloc(), &log, setup, &gate);
    assert!(rt; played.is_ok());
    assert!(rt; !gate.0.failed.load(SeqCst));
    Ok(())
}

#[test]
fn a_lone_tag_carries_one_line_at_a_time(rt: HostRuntime) -> Result<(), Fail> {
    let log = two_writes(rt.alloc())?;
    let gate = OneAtATime(Began::none());
    let setup = Setup {
        total: 1,
        submitters: 2,
        ..SETUP
    };
    let played = play(&rt, rt.alloc(), &log, setup, &gate);
    assert!(rt; played.is_ok());
    assert!(rt; !gate.0.failed.load(SeqCst));
    Ok(())
}

/// A completer that took the queue for closed, whatever its flag, would end at the empty queue, and line 4 be lost.
#[test]
fn a_completer_stays_while_more_is_to_come(rt: HostRuntime) -> Result<(), Fail> {
    let log = two_writes(rt.alloc())?;
    let gate = EmptyForAWhile(Began::none());
    let played = play(&rt, rt.alloc(), &log, SETUP, &gate);
    assert!(rt; played.is_ok());
    assert!(rt; !gate.0.failed.load(SeqCst));
    Ok(())
}
