//! Plays of logs whose reports were worked out on paper.
use loop_device::Setup;
use std::process::Abort;
use std::sync::Wait;
use std::test::*;
use std::thread::Threads;
use tag_runs::{PlayOptions, run_play};
use tag_script::Ending;

const FOUR: Setup = Setup {
    total: 4,
    reserved: 0,
    shift: None,
    submitters: 1,
    completers: 1,
    queue: 64,
};

const SMALL: &str =
    "fio version 2 iolog\n/dev/loop0 add\n/dev/loop0 open\n/dev/loop0 write 0 4096\n\
    /dev/loop0 write 4096 4096\n/dev/loop0 read 0 8192\n/dev/loop0 sync 0 0\n/dev/loop0 close";

const SMALL_REPORT: &str = "names=1\nreads=1\nwrites=2\ntrims=0\nsyncs=1\ndatasyncs=0\nwaits=0\n\
    got=4\nback=4\nheld=0\nposted=0\n";

const IDLE_REPORT: &str = "names=0\nreads=0\nwrites=0\ntrims=0\nsyncs=0\ndatasyncs=0\nwaits=0\n\
    got=0\nback=0\nheld=0\nposted=0\n";

/// Plays a log, and compares the text and whether it is refused.
fn expect<R: Abort + AllocGlobal + Threads + Wait + Sync>(
    rt: &R,
    options: PlayOptions,
    log: &[u8],
    text: &str,
) {
    let mut reader = log;
    let mut written = Vec::new(rt.alloc());
    let outcome = run_play(rt, rt.alloc(), &options, &mut reader, &mut written);
    assert_eq!(rt;
        outcome == Ok(Ending::Done),
        text.starts_with("names="),
        "at {log:?}"
    );
    assert_eq!(rt; outcome.is_ok(), true, "at {log:?}");
    assert_eq!(rt; written.as_slice(), text.as_bytes(), "at {log:?}");
}

/// A log of version 2 that is played so.
const fn without_times(setup: Setup) -> PlayOptions {
    PlayOptions {
        setup,
        with_times: false,
    }
}

#[test]
fn a_small_log_is_reported(rt: HostRuntime) {
    let setup = Setup {
        reserved: 1,
        submitters: 2,
        completers: 2,
        queue: 4,
        ..FOUR
    };
    expect(&rt, without_times(setup), SMALL.as_bytes(), SMALL_REPORT);
    expect(&rt, without_times(FOUR), SMALL.as_bytes(), SMALL_REPORT);
}

/// Prefixes of the small log that end in an incomplete line: the lengths of the shortest and the longest, in bytes.
const CUT: [(usize, usize, &str); 8] = [
    (0, 18, "line 1 refused 1\n"),
    (21, 33, "line 2 refused 2\n"),
    (36, 49, "line 3 refused 2\n"),
    (52, 70, "line 4 refused 2\n"),
    (76, 97, "line 5 refused 2\n"),
    (103, 120, "line 6 refused 2\n"),
    (126, 143, "line 7 refused 2\n"),
    (146, 160, "line 8 refused 2\n"),
];

/// The other prefixes, with the counts of names, reads, writes, syncs and tags. A number is whole from its first digit
/// on.
const WHOLE: [(usize, usize, [u64; 5]); 8] = [
    (19, 20, [0, 0, 0, 0, 0]),
    (34, 35, [1, 0, 0, 0, 0]),
    (50, 51, [1, 0, 0, 0, 0]),
    (71, 75, [1, 0, 1, 0, 1]),
    (98, 102, [1, 0, 2, 0, 2]),
    (121, 125, [1, 1, 2, 0, 3]),
    (144, 145, [1, 1, 2, 1, 4]),
    (161, 161, [1, 1, 2, 1, 4]),
];

#[test]
fn each_prefix_of_a_small_log_is_reported_or_refused(rt: HostRuntime) -> Result<(), Fail> {
    for (shortest, longest, text) in CUT {
        for length in shortest..=longest {
            let log = SMALL.as_bytes().get(..length).unwrap_or_default();
            expect(&rt, without_times(FOUR), log, text);
        }
    }
    for (shortest, longest, [names, reads, writes, syncs, tags]) in WHOLE {
        let text = format!(in rt.alloc();
            "names={names}\nreads={reads}\nwrites={writes}\ntrims=0\nsyncs={syncs}\ndatasyncs=0\nwaits=0\n\
            got={tags}\nback={tags}\nheld=0\nposted=0\n"
        )?;
        for length in shortest..=longest {
            let log = SMALL.as_bytes().get(..length).unwrap_or_default();
            expect(&rt, without_times(FOUR), log, &text);
        }
    }
    Ok(())
}

#[test]
fn each_kind_is_counted(rt: HostRuntime) {
    let log =
        "fio version 2 iolog\nb wait 1 1\na add\nb add\na add\na trim 0 512\nb trim 0 512\na trim 0 1\n\
        a datasync 0 0\na datasync 0 0\nb datasync 0 0\na datasync 0 0\nb sync 0 0\nb wait 0 0\n";
    let text = "names=2\nreads=0\nwrites=0\ntrims=3\nsyncs=1\ndatasyncs=4\nwaits=2\n\
        got=8\nback=8\nheld=0\nposted=0\n";
    expect(&rt, without_times(FOUR), log.as_bytes(), text);
}

#[test]
fn the_first_faulty_line_is_told(rt: HostRuntime) {
    for (log, text) in [
        ("", "line 1 refused 1\n"),
        ("fio version 3 iolog\n", "line 1 refused 1\n"),
        ("fio version 2 iolog\na read 0 512\n", "line 2 refused 4\n"),
        (
            "fio version 2 iolog\na add\na read 0\n",
            "line 3 refused 2\n",
        ),
        (
            "fio version 2 iolog\na add\na read 0 -1\n",
            "line 3 refused 3\n",
        ),
        (
            "fio version 2 iolog\na add\na read 0 9223372036854775808\n",
            "line 3 refused 3\n",
        ),
        (
            "fio version 2 iolog\na add\nb add\nc add\nd add\ne add\nf add\ng add\nh add\ni add\nj add\nk add\n\
            l add\nm add\nn add\no add\np add\nq add\n",
            "line 18 refused 5\n",
        ),
        (
            "fio version 2 iolog\n/dev/loop0 add\n/dev/loop0 open\n/dev/loop0 write 0",
            "line 4 refused 2\n",
        ),
    ] {
        expect(&rt, without_times(FOUR), log.as_bytes(), text);
    }
}

#[test]
fn a_setup_beyond_its_limits_is_refused(rt: HostRuntime) {
    let header = b"fio version 2 iolog\n".as_slice();
    for setup in [
        Setup {
            total: 2,
            reserved: 2,
            ..FOUR
        },
        Setup {
            submitters: 17,
            ..FOUR
        },
        Setup { queue: 0, ..FOUR },
    ] {
        expect(&rt, without_times(setup), header, "play refused 2\n");
    }
    expect(&rt, without_times(FOUR), header, IDLE_REPORT);
    // A malformed line is reported before an illegal setup.
    expect(
        &rt,
        without_times(Setup { queue: 0, ..FOUR }),
        &[],
        "line 1 refused 1\n",
    );
}

#[test]
fn a_log_with_times_is_reported_as_without(rt: HostRuntime) {
    let with_times = PlayOptions {
        setup: FOUR,
        with_times: true,
    };
    let log =
        "fio version 3 iolog\n0 /dev/loop0 add\n12 /dev/loop0 open\n12 /dev/loop0 write 0 4096\n\
        13 /dev/loop0 write 4096 4096\n20 /dev/loop0 read 0 8192\n20 /dev/loop0 sync 0 0\n25 /dev/loop0 close";
    expect(&rt, with_times, log.as_bytes(), SMALL_REPORT);
    expect(
        &rt,
        without_times(FOUR),
        log.as_bytes(),
        "line 1 refused 1\n",
    );
    expect(&rt, with_times, SMALL.as_bytes(), "line 1 refused 1\n");
    let falls = b"fio version 3 iolog\n5 a add\n4 a open\n".as_slice();
    expect(&rt, with_times, falls, "line 3 refused 7\n");
    expect(
        &rt,
        with_times,
        b"fio version 3 iolog\na add\n",
        "line 2 refused 3\n",
    );
    expect(
        &rt,
        with_times,
        b"fio version 3 iolog\n5\n",
        "line 2 refused 2\n",
    );
}
