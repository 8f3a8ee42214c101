//! What is said of each refusal, beside the line of output, which tells it by numbers.
use loop_device::Setup;
use std::process::Abort;
use std::sync::Wait;
use std::test::*;
use std::thread::Threads;
use tag_runs::{PlayOptions, RunFault, run_check, run_play, run_script};
use tag_script::{CheckOptions, Ending, ScriptOptions};

/// What is said of a run that was refused.
fn said<R: AllocGlobal>(rt: &R, outcome: Result<Ending, RunFault>) -> Result<String, Fail> {
    match outcome {
        Ok(Ending::Refused(refusal)) => Ok(format!(in rt.alloc(); "{refusal}")?),
        _ => Err(Fail::new("the run was not refused")),
    }
}

/// One caller alone, with four tags.
const ALONE: ScriptOptions = ScriptOptions {
    tags: 4,
    reserved: 0,
    shift: None,
    round_robin: false,
    min_shallow: None,
    callers: 1,
    life: 281_474_976_710_656,
    plain: true,
};

const EMPTY: &str =
    "line 1: an empty word: the line is empty, begins or ends with a blank, or has two in a row";

/// Runs a script that is refused, and compares what is said of it.
fn expect_script<R: Abort + AllocGlobal + Wait>(
    rt: &R,
    options: &ScriptOptions,
    script: &str,
    words: &str,
) -> Result<(), Fail> {
    let mut written = Vec::new(rt.alloc());
    let outcome = run_script(
        rt,
        rt.alloc(),
        options,
        &mut script.as_bytes(),
        &mut written,
    );
    assert_eq!(rt; said(rt, outcome)?.as_str(), words, "at {script}");
    Ok(())
}

#[test]
fn what_is_said_of_a_script(rt: HostRuntime) -> Result<(), Fail> {
    let unknown = "line 1, word 2: no such command with this many words, or not under --plain";
    for (script, words) in [
        ("0  get", EMPTY),
        (
            "get",
            "line 1: a caller's number and a command are expected",
        ),
        ("0 gets", unknown),
        ("0 clear", unknown),
        ("0 clear 1 2", unknown),
        ("0 wait", unknown),
        (
            "x get",
            "line 1, word 1: not a decimal number, or one that is too large",
        ),
        (
            "x clear x",
            "line 1, word 1: not a decimal number, or one that is too large",
        ),
        (
            "0 get\n0 clear -1",
            "line 2, word 3: not a decimal number, or one that is too large",
        ),
        (
            "0 clear-batch 0 1 4294967296 x",
            "line 1, word 5: not a decimal number, or one that is too large",
        ),
        (
            "0 get\n0 get\n1 get",
            "line 3, word 1: no such caller: they are numbered from 0, and --callers says how many there are",
        ),
    ] {
        expect_script(&rt, &ALONE, script, words)?;
    }
    Ok(())
}

#[test]
fn what_is_said_of_a_setup(rt: HostRuntime) -> Result<(), Fail> {
    let shared = ScriptOptions {
        plain: false,
        ..ALONE
    };
    for (refused, words) in [
        (
            ScriptOptions {
                tags: 10_241,
                ..shared
            },
            "--tags: more than 10240",
        ),
        (
            ScriptOptions {
                reserved: 5,
                ..shared
            },
            "--reserved: more than --tags, or any at all under --plain",
        ),
        (
            ScriptOptions {
                shift: Some(7),
                ..shared
            },
            "--shift: above 6",
        ),
        (
            ScriptOptions {
                callers: 65,
                ..shared
            },
            "--callers: not from 1 to 64, or not 1 under --plain",
        ),
        (
            ScriptOptions {
                life: 281_474_976_710_657,
                ..shared
            },
            "--life: above 281474976710656",
        ),
    ] {
        expect_script(&rt, &refused, "0 get\n", words)?;
    }
    Ok(())
}

#[test]
fn what_is_said_of_a_list(rt: HostRuntime) -> Result<(), Fail> {
    let four = CheckOptions {
        tags: 4,
        shift: Some(2),
        callers: 2,
    };
    let unknown = "line 1, word 1: no such event with this many words";
    let missing = "no such tag, no such word of the map, or a bit beyond its tags";
    for (list, words) in [
        ("look ", EMPTY),
        ("looks", unknown),
        ("win 0", unknown),
        ("win 0 0", unknown),
        ("win 0 0 1 2", unknown),
        (
            "look\nput x 0",
            "line 2, word 2: not a decimal number, or one that is too large",
        ),
        (
            "win 0 x 0",
            "line 1, word 3: not a decimal number, or one that is too large",
        ),
        (
            "win 0 0 18446744073709551616",
            "line 1, word 4: not a decimal number, or one that is too large",
        ),
        ("win 0 1 1", "line 1, word 3: {missing}"),
        ("win 0 0 16", "line 1, word 4: {missing}"),
        ("put 0 4", "line 1, word 3: {missing}"),
        (
            "win 2 0 1",
            "line 1, word 2: no such caller: they are numbered from 0, and --callers says how many there are",
        ),
        (
            "win 0 0 8\nwin 1 0 8",
            "line 2, word 4: a tag that is not free",
        ),
        (
            "put 0 3",
            "line 1, word 3: a tag that the caller does not hold",
        ),
        (
            "give 0 0 8",
            "line 1, word 4: a tag that the caller does not hold",
        ),
        ("look\ntake 0 3", "line 2, word 3: a tag that is not posted"),
    ] {
        let mut written = Vec::new(rt.alloc());
        let outcome = run_check(rt.alloc(), &four, &mut list.as_bytes(), &mut written);
        let owed = words.replace(rt.alloc(), "{missing}", missing)?;
        assert_eq!(rt; said(&rt, outcome)?.as_str(), owed.as_str(), "at {list}");
    }
    Ok(())
}

const PLAY: PlayOptions = PlayOptions {
    setup: Setup {
        total: 4,
        reserved: 0,
        shift: None,
        submitters: 1,
        completers: 1,
        queue: 4,
    },
    with_times: false,
};

/// Plays a log that is refused, and compares what is said of it.
fn expect_play<R: Abort + AllocGlobal + Threads + Wait + Sync>(
    rt: &R,
    options: &PlayOptions,
    log: &str,
    words: &str,
) -> Result<(), Fail> {
    let mut written = Vec::new(rt.alloc());
    let outcome = run_play(rt, rt.alloc(), options, &mut log.as_bytes(), &mut written);
    assert_eq!(rt; said(rt, outcome)?.as_str(), words, "at {log}");
    Ok(())
}

#[test]
fn what_is_said_of_a_log(rt: HostRuntime) -> Result<(), Fail> {
    let unknown = "no such action with this many words; a file name has no blanks";
    let number = "not a decimal number of at most 9223372036854775807";
    for (lines, words) in [
        (
            "a add ",
            "line 2: an empty word: the line is empty, begins or ends with a blank, or has two in a row",
        ),
        (
            "my file add",
            "line 2: neither two words nor four; a file name has no blanks",
        ),
        ("a shut", "line 2, word 2: {unknown}"),
        ("a add\na read", "line 3, word 2: {unknown}"),
        ("my big file add", "line 2, word 2: {unknown}"),
        ("a add\na read x 1", "line 3, word 3: {number}"),
        ("a add\na read 0 -1", "line 3, word 4: {number}"),
        (
            "a add\nb open",
            "line 3, word 1: no line before this one adds this file",
        ),
        (
            "a add\nb add\nc add\nd add\ne add\nf add\ng add\nh add\ni add\nj add\nk add\nl add\n\
            m add\nn add\no add\np add\nq add",
            "line 18, word 1: a seventeenth file, and a log has 16 at most",
        ),
    ] {
        let log = format!(in rt.alloc(); "fio version 2 iolog\n{lines}")?;
        let owed = words
            .replace(rt.alloc(), "{unknown}", unknown)?
            .replace(rt.alloc(), "{number}", number)?;
        expect_play(&rt, &PLAY, &log, &owed)?;
    }
    for (log, words) in [
        (
            "",
            "line 1: not 'fio version 2 iolog', with which a log begins",
        ),
        (
            "0 get\n",
            "line 1: not 'fio version 2 iolog', with which a log begins",
        ),
        (
            "fio version 3 iolog\n0 a add\n",
            "line 1: a log of version 3, with a time before each line: --with-times plays it",
        ),
    ] {
        expect_play(&rt, &PLAY, log, words)?;
    }
    Ok(())
}

#[test]
fn what_is_said_of_a_log_with_times(rt: HostRuntime) -> Result<(), Fail> {
    let timed = PlayOptions {
        with_times: true,
        ..PLAY
    };
    for (lines, words) in [
        (
            "5 my file add",
            "line 2: neither three words nor five; a file name has no blanks",
        ),
        (
            "x a add",
            "line 2, word 1: the time is not a decimal number, or is too large",
        ),
        (
            "5 a add\n4 a open",
            "line 3, word 1: the time is less than that of the line before",
        ),
        (
            "5 a shut",
            "line 2, word 3: no such action with this many words; a file name has no blanks",
        ),
        (
            "5 a add\n5 a read x 1",
            "line 3, word 4: not a decimal number of at most 9223372036854775807",
        ),
        (
            "5 a add\n5 a read 0 x",
            "line 3, word 5: not a decimal number of at most 9223372036854775807",
        ),
        (
            "5 a open",
            "line 2, word 2: no line before this one adds this file",
        ),
    ] {
        let log = format!(in rt.alloc(); "fio version 3 iolog\n{lines}")?;
        expect_play(&rt, &timed, &log, words)?;
    }
    for (log, words) in [
        (
            "fio version 2 iolog\na add\n",
            "line 1: a log of version 2, which has no times: leave out --with-times",
        ),
        (
            "a add\n",
            "line 1: not 'fio version 3 iolog', with which a log with times begins",
        ),
    ] {
        expect_play(&rt, &timed, log, words)?;
    }
    Ok(())
}

#[test]
fn what_is_said_of_a_play(rt: HostRuntime) -> Result<(), Fail> {
    let setup = PLAY.setup;
    for (refused, words) in [
        (
            Setup {
                total: 10_241,
                ..setup
            },
            "more than 10240 tags",
        ),
        (
            Setup {
                reserved: 4,
                ..setup
            },
            "no tag that is not reserved",
        ),
        (
            Setup {
                shift: Some(7),
                ..setup
            },
            "a shift above 6",
        ),
        (
            Setup {
                submitters: 0,
                ..setup
            },
            "the number of submitters is not from 1 to 16",
        ),
        (
            Setup {
                completers: 17,
                ..setup
            },
            "the number of completers is not from 1 to 16",
        ),
        (
            Setup { queue: 0, ..setup },
            "the queue is not from 1 to 10240",
        ),
    ] {
        let options = PlayOptions {
            setup: refused,
            ..PLAY
        };
        expect_play(&rt, &options, "fio version 2 iolog\n", words)?;
    }
    Ok(())
}
