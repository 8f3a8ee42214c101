//! Readers and writers that fail, and inputs at the size limit.
use loop_device::Setup;
use std::io;
use std::io::{Read, Write};
use std::test::*;
use tag_runs::{PlayOptions, RunFault, Watched, run_check, run_play, run_script};
use tag_script::{CheckOptions, Ending, ScriptOptions};

const FOUR: CheckOptions = CheckOptions {
    tags: 4,
    shift: Some(2),
    callers: 1,
};

const PLAIN_FOUR: ScriptOptions = ScriptOptions {
    tags: 4,
    reserved: 0,
    shift: Some(2),
    round_robin: false,
    min_shallow: None,
    callers: 1,
    life: 1,
    plain: true,
};

const SHARED_FOUR: ScriptOptions = ScriptOptions {
    plain: false,
    ..PLAIN_FOUR
};

const PLAYED_FOUR: PlayOptions = PlayOptions {
    setup: Setup {
        total: 4,
        reserved: 0,
        shift: None,
        submitters: 1,
        completers: 1,
        queue: 1,
    },
    with_times: false,
};

/// A reader that gives one byte per call, and an error at the call with this number, counted from 0.
#[derive(Drop)]
struct Failing<'a> {
    text: &'a [u8],
    at: usize,
    fails_at: usize,
}

impl<'a> Read for Failing<'a> {
    fn read(&mut self, buf: &mut [u8]) -> io::Result<usize> {
        if self.at == self.fails_at {
            return Err(io::Error::from(io::ErrorKind::Interrupted));
        }
        match (self.text.get(self.at), buf.first_mut()) {
            (Some(byte), Some(place)) => {
                *place = *byte;
                self.at = self.at.saturating_add(1);
                Ok(1)
            }
            _ => Ok(0),
        }
    }
}

/// The largest length of an input, in bytes.
const MOST: usize = 16_777_216;

const TOO_MANY: usize = 16_777_217;

fn sevens(left: usize) -> Watched<Repeats> {
    Watched::new(Repeats { byte: b'7', left })
}

/// A reader that gives `left` copies of `byte`.
#[derive(Drop)]
struct Repeats {
    byte: u8,
    left: usize,
}

impl Read for Repeats {
    fn read(&mut self, buf: &mut [u8]) -> io::Result<usize> {
        let count = self.left.min(buf.len());
        for place in &mut buf[..count] {
            *place = self.byte;
        }
        self.left -= count;
        Ok(count)
    }
}

/// A writer that refuses every write.
#[derive(Drop)]
struct Shut;

impl Write for Shut {
    fn write(&mut self, _buf: &[u8]) -> io::Result<usize> {
        Err(io::Error::from(io::ErrorKind::BrokenPipe))
    }

    fn flush(&mut self) -> io::Result<()> {
        Ok(())
    }
}

#[test]
fn an_error_at_any_call_of_the_reader_leaves_no_output(rt: HostRuntime) {
    let text = b"win 0 0 8\nput 0 3\n".as_slice();
    for fails_at in 0..=text.len() {
        let mut reader = Watched::new(Failing {
            text,
            at: 0,
            fails_at,
        });
        let mut written = Vec::new(rt.alloc());
        let outcome = run_check(rt.alloc(), &FOUR, &mut reader, &mut written);
        assert_eq!(rt; outcome, Err(RunFault::Read), "at {fails_at}");
        assert!(rt; written.is_empty(), "at {fails_at}");
    }
}

#[test]
fn an_error_at_any_call_of_the_reader_leaves_no_answer(rt: HostRuntime) {
    let text = b"0 get\n0 clear 0\n".as_slice();
    for options in [PLAIN_FOUR, SHARED_FOUR] {
        for fails_at in 0..=text.len() {
            let mut reader = Watched::new(Failing {
                text,
                at: 0,
                fails_at,
            });
            let mut written = Vec::new(rt.alloc());
            let outcome = run_script(&rt, rt.alloc(), &options, &mut reader, &mut written);
            assert_eq!(rt; outcome, Err(RunFault::Read), "at {fails_at}");
            assert!(rt; written.is_empty(), "at {fails_at}");
        }
    }
}

#[test]
fn an_error_at_any_call_of_the_reader_leaves_no_report(rt: HostRuntime) {
    let text = b"fio version 2 iolog\na add\n".as_slice();
    for fails_at in 0..=text.len() {
        let mut reader = Watched::new(Failing {
            text,
            at: 0,
            fails_at,
        });
        let mut written = Vec::new(rt.alloc());
        let outcome = run_play(&rt, rt.alloc(), &PLAYED_FOUR, &mut reader, &mut written);
        assert_eq!(rt; outcome, Err(RunFault::Read), "at {fails_at}");
        assert!(rt; written.is_empty(), "at {fails_at}");
    }
}

#[test]
fn an_error_of_the_writer_is_told(rt: HostRuntime) {
    let outcome = run_check(rt.alloc(), &FOUR, &mut b"look\n".as_slice(), &mut Shut);
    assert_eq!(rt; outcome, Err(RunFault::Write));
    for options in [PLAIN_FOUR, SHARED_FOUR] {
        let outcome = run_script(
            &rt,
            rt.alloc(),
            &options,
            &mut b"0 get\n".as_slice(),
            &mut Shut,
        );
        assert_eq!(rt; outcome, Err(RunFault::Write));
    }
    let outcome = run_play(
        &rt,
        rt.alloc(),
        &PLAYED_FOUR,
        &mut b"fio version 2 iolog\n".as_slice(),
        &mut Shut,
    );
    assert_eq!(rt; outcome, Err(RunFault::Write));
}

#[test]
fn an_input_of_16_mib_is_read_and_one_byte_more_is_too_long(rt: HostRuntime) {
    let mut written = Vec::new(rt.alloc());
    let outcome = run_check(rt.alloc(), &FOUR, &mut sevens(TOO_MANY), &mut written);
    assert_eq!(rt; outcome, Err(RunFault::TooLong));
    assert!(rt; written.is_empty());
    let outcome = run_check(rt.alloc(), &FOUR, &mut sevens(MOST), &mut written);
    assert!(rt; matches!(outcome, Ok(Ending::Refused(_))));
    assert_eq!(rt; written.as_slice(), b"line 1 refused 1\n".as_slice());
}

#[test]
fn a_script_of_16_mib_is_read_and_one_byte_more_is_too_long(rt: HostRuntime) {
    for options in [PLAIN_FOUR, SHARED_FOUR] {
        let mut written = Vec::new(rt.alloc());
        let mut long = sevens(TOO_MANY);
        let outcome = run_script(&rt, rt.alloc(), &options, &mut long, &mut written);
        assert_eq!(rt; outcome, Err(RunFault::TooLong));
        assert!(rt; written.is_empty());
        let outcome = run_script(&rt, rt.alloc(), &options, &mut sevens(MOST), &mut written);
        assert!(rt; matches!(outcome, Ok(Ending::Refused(_))));
        assert_eq!(rt; written.as_slice(), b"line 1 refused 1\n".as_slice());
    }
}

#[test]
fn a_log_of_16_mib_is_read_and_one_byte_more_is_too_long(rt: HostRuntime) {
    let mut written = Vec::new(rt.alloc());
    let outcome = run_play(
        &rt,
        rt.alloc(),
        &PLAYED_FOUR,
        &mut sevens(TOO_MANY),
        &mut written,
    );
    assert_eq!(rt; outcome, Err(RunFault::TooLong));
    assert!(rt; written.is_empty());
    let outcome = run_play(
        &rt,
        rt.alloc(),
        &PLAYED_FOUR,
        &mut sevens(MOST),
        &mut written,
    );
    assert!(rt; matches!(outcome, Ok(Ending::Refused(_))));
    assert_eq!(rt; written.as_slice(), b"line 1 refused 1\n".as_slice());
}

#[test]
fn want_of_memory_leaves_no_output(rt: HostRuntime) {
    let mut written = Vec::new(rt.alloc());
    match run_check(
        rt.alloc(),
        &FOUR,
        &mut b"win 0 0 8\nlook\n".as_slice(),
        &mut written,
    ) {
        Ok(ending) => assert_eq!(rt; ending, Ending::Done),
        Err(fault) => {
            assert!(rt; fault == RunFault::Memory || fault == RunFault::Write);
            assert!(rt; fault == RunFault::Write || written.is_empty());
        }
    }
}

#[test]
fn want_of_memory_leaves_no_answer(rt: HostRuntime) {
    let plain = b"0 get\n0 show\n0 busy\n0 dump\n0 clear-batch 0\n".as_slice();
    let shared = b"0 get\n0 show\n0 busy\n0 dump\n0 clear-batch 0\n0 resize 5\n".as_slice();
    for (options, mut script) in [(PLAIN_FOUR, plain), (SHARED_FOUR, shared)] {
        let mut written = Vec::new(rt.alloc());
        match run_script(&rt, rt.alloc(), &options, &mut script, &mut written) {
            Ok(ending) => assert_eq!(rt; ending, Ending::Done),
            Err(fault) => {
                assert!(rt; fault == RunFault::Memory || fault == RunFault::Write);
                assert!(rt; fault == RunFault::Write || written.is_empty());
            }
        }
    }
}

#[test]
fn want_of_memory_leaves_no_report(rt: HostRuntime) {
    let mut written = Vec::new(rt.alloc());
    match run_play(
        &rt,
        rt.alloc(),
        &PLAYED_FOUR,
        &mut b"fio version 2 iolog\na add\na write 0 512\n".as_slice(),
        &mut written,
    ) {
        Ok(ending) => assert_eq!(rt; ending, Ending::Done),
        Err(fault) => {
            assert!(rt; fault == RunFault::Memory || fault == RunFault::Write);
            assert!(rt; fault == RunFault::Write || written.is_empty());
        }
    }
}
