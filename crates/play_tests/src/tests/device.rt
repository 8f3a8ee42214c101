//! Examples worked out by hand, and what happens when memory runs out.
mod logs;
mod memory;
mod overlap;
mod plays;
mod requests;
mod times;

use loop_device::{Done, Io, IoKind, Log, PlayFault, Store, verdict};
use std::alloc::{AllocError, Global};
use std::test::Fail;

fn io(line: u64, kind: IoKind, offset: u64, length: u64) -> Io {
    Io {
        line,
        kind,
        name: 0,
        offset,
        length,
    }
}

#[test]
fn stamps(rt: HostRuntime) -> Result<(), Fail> {
    let mut store = Store::open(rt.alloc());
    for (io, stamp) in [
        (io(4, IoKind::Write, 0, 1024), 4),
        (io(5, IoKind::Trim, 512, 512), 5),
        (io(6, IoKind::Read, 0, 512), 4),
        (io(7, IoKind::Read, 0, 513), 5),
        (io(8, IoKind::Read, 4096, 1), 0),
        (io(9, IoKind::Read, 0, 0), 0),
    ] {
        assert_eq!(rt; store.carry_out(&io)?, stamp);
    }
    assert_eq!(rt; store.history().len(), 6);
    Ok(())
}

#[test]
fn the_greatest_stamp_is_not_always_the_newest(rt: HostRuntime) -> Result<(), Fail> {
    let mut store = Store::open(rt.alloc());
    store.carry_out(&io(9, IoKind::Write, 0, 512))?;
    store.carry_out(&io(3, IoKind::Write, 512, 512))?;
    assert_eq!(rt; store.carry_out(&io(10, IoKind::Read, 0, 1024))?, 9);
    assert_eq!(rt; store.carry_out(&io(11, IoKind::Read, 512, 512))?, 3);
    Ok(())
}

#[test]
fn the_last_sector_of_a_name(rt: HostRuntime) -> Result<(), Fail> {
    let far = 9_223_372_036_854_775_807;
    let mut store = Store::open(rt.alloc());
    store.carry_out(&io(3, IoKind::Write, far, far))?;
    assert_eq!(rt; store.carry_out(&io(4, IoKind::Read, far, 1))?, 3);
    assert_eq!(rt; store.carry_out(&io(5, IoKind::Read, 0, far - 1_024))?, 0);
    let other = Io {
        name: 1,
        ..io(6, IoKind::Read, 0, far)
    };
    assert_eq!(rt; store.carry_out(&other)?, 0);
    Ok(())
}

#[test]
fn want_of_memory_leaves_the_store_as_it_was(rt: HostRuntime) -> Result<(), Fail> {
    let mut store = Store::open(rt.alloc());
    for (line, stamp) in [(3, 3), (4, 4)] {
        let write = io(line, IoKind::Write, line * 512, 1024);
        let before = store.history().len();
        if store.carry_out(&write).is_err() {
            assert_eq!(rt; store.history().len(), before);
            assert_eq!(rt; store.carry_out(&write)?, stamp);
        }
    }
    assert_eq!(rt; store.carry_out(&io(5, IoKind::Read, 0, 2_048))?, 3);
    assert_eq!(rt; store.carry_out(&io(6, IoKind::Read, 0, 4_096))?, 4);
    Ok(())
}

/// The log `write`, `write`, `read`, `sync` on lines 4 to 7.
fn small_log(alloc: Global) -> Result<Log, AllocError> {
    Ok(Log {
        names: Vec::new(alloc),
        ios: SMALL.to_vec(alloc)?,
        waits: 0,
    })
}

const SMALL: [Io; 4] = [
    Io {
        line: 4,
        kind: IoKind::Write,
        name: 0,
        offset: 0,
        length: 4_096,
    },
    Io {
        line: 5,
        kind: IoKind::Write,
        name: 0,
        offset: 4_096,
        length: 4_096,
    },
    Io {
        line: 6,
        kind: IoKind::Read,
        name: 0,
        offset: 0,
        length: 8_192,
    },
    Io {
        line: 7,
        kind: IoKind::Sync,
        name: 0,
        offset: 0,
        length: 0,
    },
];

fn done(io: Io) -> Done {
    Done { io, stamp: 0 }
}

#[test]
fn verdicts(rt: HostRuntime) -> Result<(), Fail> {
    let log = small_log(rt.alloc())?;
    let [first, second, third, fourth] = SMALL;
    let each = [done(first), done(second), done(third), done(fourth)];
    assert_eq!(rt; verdict(rt.alloc(), &log, &each), Ok(()));
    let twice = [done(first), done(second), done(second), done(fourth)];
    assert_eq!(rt; verdict(rt.alloc(), &log, &twice), Err(PlayFault::Twice(5)));
    let lost = [done(first), done(second), done(fourth)];
    assert_eq!(rt; verdict(rt.alloc(), &log, &lost), Err(PlayFault::Lost(6)));
    let spurious = [done(first), done(io(9, IoKind::Write, 0, 512))];
    assert_eq!(rt;
        verdict(rt.alloc(), &log, &spurious),
        Err(PlayFault::Spurious)
    );
    let changed = [
        done(first),
        done(io(5, IoKind::Write, 0, 512)),
        done(third),
        done(fourth),
    ];
    assert_eq!(rt;
        verdict(rt.alloc(), &log, &changed),
        Err(PlayFault::Spurious)
    );
    Ok(())
}
