//! I/O logs whose reading was worked out by hand.

use loop_device::{Io, IoKind, Log, LogCause, LogFault, LogNumber};
use std::alloc::{AllocError, Global};
use std::test::Fail;
use tag_lines::Misfit;

const SMALL: &[u8] =
    b"fio version 2 iolog\n/dev/loop0 add\n/dev/loop0 open\n/dev/loop0 write 0 4096\n\
/dev/loop0 write 4096 4096\n/dev/loop0 read 0 8192\n/dev/loop0 sync 0 0\n/dev/loop0 close";

/// The lines after a header.
fn behind_header(alloc: Global, lines: &[u8]) -> Result<Vec<u8>, AllocError> {
    let mut text = b"fio version 2 iolog\n".to_vec(alloc)?;
    text.extend_from_slice(lines)?;
    Ok(text)
}

fn fault_of(alloc: Global, text: &[u8]) -> Option<LogFault> {
    match Log::read(alloc, text) {
        Ok(_) => None,
        Err(fault) => Some(fault),
    }
}

/// The second word is no action with as many words.
const UNKNOWN: LogCause = LogCause::BadLine(Misfit::UnknownCommand(2));

const EMPTY: LogCause = LogCause::BadLine(Misfit::EmptyWord);

const COUNT: LogCause = LogCause::BadLine(Misfit::WordCount);

const OFFSET: LogCause = LogCause::BadNumber(LogNumber::Offset);

const LENGTH: LogCause = LogCause::BadNumber(LogNumber::Length);

/// The line where a fault `BadLine` is.
fn bad_line_of(alloc: Global, text: &[u8]) -> Option<u64> {
    match fault_of(alloc, text) {
        Some(
            LogFault {
                line,
                cause: LogCause::BadLine(_),
            },
        ) => Some(line),
        _ => None,
    }
}

#[test]
fn a_small_log(rt: HostRuntime) -> Result<(), Fail> {
    let Ok(log) = Log::read(rt.alloc(), SMALL) else {
        return Err(Fail::new("a log was not read"));
    };
    assert_eq!(rt; log.names.len(), 1);
    assert_eq!(rt; log.names[0].as_slice(), b"/dev/loop0".as_slice());
    assert_eq!(rt; log.waits, 0);
    assert_eq!(rt; log.ios.len(), 4);
    assert_eq!(rt;
        log.ios[2],
        Io {
            line: 6,
            kind: IoKind::Read,
            name: 0,
            offset: 0,
            length: 8_192
        }
    );
    assert_eq!(rt; log.ios[3].line, 7);
    Ok(())
}

#[test]
fn names_and_waits(rt: HostRuntime) -> Result<(), Fail> {
    let text = behind_header(
        rt.alloc(),
        b"a add\nb add\na add\nc wait 0 9\nb trim 512 9223372036854775807\n",
    )?;
    let Ok(log) = Log::read(rt.alloc(), &text) else {
        return Err(Fail::new("a log was not read"));
    };
    assert_eq!(rt; log.names.len(), 2);
    assert_eq!(rt; log.waits, 1);
    assert_eq!(rt;
        log.ios.first(),
        Some(&Io {
            line: 6,
            kind: IoKind::Trim,
            name: 1,
            offset: 512,
            length: 9_223_372_036_854_775_807
        })
    );
    Ok(())
}

#[test]
fn faulty_logs(rt: HostRuntime) -> Result<(), Fail> {
    for (lines, line, cause) in [
        (b"a read 0 512".as_slice(), 2, LogCause::UnknownName),
        (b"a add\na read 0".as_slice(), 3, COUNT),
        (b"a add\na read 0 -1".as_slice(), 3, LENGTH),
        (b"a add\na read 0 9223372036854775808".as_slice(), 3, LENGTH),
        (b"a open\n".as_slice(), 2, LogCause::UnknownName),
        (b"a add\n\na add".as_slice(), 3, EMPTY),
        (b"a add \n".as_slice(), 2, EMPTY),
        (b"a shut\n".as_slice(), 2, UNKNOWN),
        (b"a add 0 0\n".as_slice(), 2, UNKNOWN),
        (b"a read x 0\n".as_slice(), 2, OFFSET),
        (b"a read 0 0 0".as_slice(), 2, COUNT),
        (b"\n".as_slice(), 2, EMPTY),
        (b" add".as_slice(), 2, EMPTY),
        (b"a add\r\n".as_slice(), 2, UNKNOWN),
        (b"fio version 2 iolog".as_slice(), 2, UNKNOWN),
        (b"a read 0 +1".as_slice(), 2, LENGTH),
        (b"a wait 0 9223372036854775808".as_slice(), 2, LENGTH),
        (b"ab add\na open".as_slice(), 3, LogCause::UnknownName),
        (b"a add\nab open".as_slice(), 3, LogCause::UnknownName),
        (b"my file add".as_slice(), 2, COUNT),
    ] {
        let text = behind_header(rt.alloc(), lines)?;
        assert_eq!(rt;
            fault_of(rt.alloc(), &text),
            Some(LogFault { line, cause }),
            "at {lines:?}"
        );
    }
    Ok(())
}

#[test]
fn headers(rt: HostRuntime) -> Result<(), Fail> {
    let missing = Some(LogFault {
        line: 1,
        cause: LogCause::NoHeader,
    });
    for text in [
        b"".as_slice(),
        b"\n".as_slice(),
        b" fio version 2 iolog".as_slice(),
        b"fio version 2 iolog \n".as_slice(),
        b"fio version 2 iolog\r\n".as_slice(),
    ] {
        assert_eq!(rt; fault_of(rt.alloc(), text), missing);
    }
    let other = Some(LogFault {
        line: 1,
        cause: LogCause::OtherVersion,
    });
    assert_eq!(rt; fault_of(rt.alloc(), b"fio version 3 iolog\n"), other);
    assert_eq!(rt; fault_of(rt.alloc(), b"fio version 2 iolog"), None);
    assert_eq!(rt; fault_of(rt.alloc(), b"fio version 2 iolog\n"), None);
    Ok(())
}

#[test]
fn seventeen_names(rt: HostRuntime) -> Result<(), Fail> {
    let mut text = behind_header(rt.alloc(), b"")?;
    for name in b'a'..b'q' {
        text.push(name)?;
        text.extend_from_slice(b" add\n")?;
    }
    text.extend_from_slice(b"a add\n")?;
    assert_eq!(rt; fault_of(rt.alloc(), &text), None);
    text.extend_from_slice(b"q add\n")?;
    let fault = LogFault {
        line: 19,
        cause: LogCause::TooManyNames,
    };
    assert_eq!(rt; fault_of(rt.alloc(), &text), Some(fault));
    Ok(())
}

#[test]
fn long_lines(rt: HostRuntime) -> Result<(), Fail> {
    let name = vec![in rt.alloc(); b'n'; 1_048_576]?;
    let mut text = behind_header(rt.alloc(), &name)?;
    text.extend_from_slice(b" add\n")?;
    text.extend_from_slice(&name)?;
    text.extend_from_slice(b" read 0 512\n")?;
    let Ok(log) = Log::read(rt.alloc(), &text) else {
        return Err(Fail::new("a log was not read"));
    };
    assert_eq!(rt; log.names.len(), 1);
    assert_eq!(rt; log.names[0].as_slice(), name.as_slice());
    assert_eq!(rt; log.ios.len(), 1);
    let line = vec![in rt.alloc(); b'n'; 16_777_216]?;
    let text = behind_header(rt.alloc(), &line)?;
    assert_eq!(rt; bad_line_of(rt.alloc(), &text), Some(2));
    Ok(())
}

#[test]
fn random_bytes(rt: HostRuntime) -> Result<(), Fail> {
    let mut state = 1u64;
    let mut text = behind_header(rt.alloc(), b"")?;
    for _ in 0..500 {
        state = state
            .wrapping_mul(6_364_136_223_846_793_005)
            .wrapping_add(1);
        text.push((state >> 56) as u8)?;
        assert_eq!(rt; bad_line_of(rt.alloc(), &text), Some(2));
    }
    Ok(())
}

/// How many bytes of the small log end a line, with its line feed or without, or a number that is cut short.
const WHOLE: [(usize, usize); 7] = [
    (19, 20),
    (34, 35),
    (50, 51),
    (71, 75),
    (98, 102),
    (121, 125),
    (144, 145),
];

#[test]
fn each_prefix_is_read_or_is_faulty_in_its_last_line(rt: HostRuntime) -> Result<(), Fail> {
    for end in 0..SMALL.len() {
        let lines = SMALL[..end].iter().filter(|byte| **byte == b'\n').count() as u64;
        let fault = fault_of(rt.alloc(), &SMALL[..end]);
        if WHOLE
            .iter()
            .any(|(first, last)| *first <= end && end <= *last)
        {
            assert_eq!(rt; fault, None);
        } else if lines == 0 {
            assert_eq!(rt; fault.map(|fault| fault.cause), Some(LogCause::NoHeader));
        } else {
            let last = lines.saturating_add(1);
            assert_eq!(rt; bad_line_of(rt.alloc(), &SMALL[..end]), Some(last));
        }
    }
    Ok(())
}
