//! I/O logs with times: the log is that of the lines without them.

use loop_device::{Log, LogCause, LogFault, LogNumber};
use std::alloc::{AllocError, Global};
use std::test::Fail;
use tag_lines::Misfit;

const PLAIN: &[u8] =
    b"fio version 2 iolog\na add\na write 0 512\nb wait 1 1\na trim 0 9223372036854775807";

/// The same log with times, among them equal ones, leading zeros and the greatest one.
const TIMED: &[u8] = b"fio version 3 iolog\n0 a add\n007 a write 0 512\n7 b wait 1 1\n\
18446744073709551615 a trim 0 9223372036854775807";

/// The lines after a header of version 3.
fn behind_header(alloc: Global, lines: &[u8]) -> Result<Vec<u8>, AllocError> {
    let mut text = b"fio version 3 iolog\n".to_vec(alloc)?;
    text.extend_from_slice(lines)?;
    Ok(text)
}

fn fault_of(alloc: Global, text: &[u8]) -> Option<LogFault> {
    match Log::read_with_times(alloc, text) {
        Ok(_) => None,
        Err(fault) => Some(fault),
    }
}

#[test]
fn a_log_with_times_is_the_log_without_them(rt: HostRuntime) -> Result<(), Fail> {
    let Ok(plain) = Log::read(rt.alloc(), PLAIN) else {
        return Err(Fail::new("a log was not read"));
    };
    let Ok(timed) = Log::read_with_times(rt.alloc(), TIMED) else {
        return Err(Fail::new("a log with times was not read"));
    };
    assert_eq!(rt; timed.names.len(), 1);
    assert_eq!(rt; timed.names[0].as_slice(), plain.names[0].as_slice());
    assert_eq!(rt; timed.ios.as_slice(), plain.ios.as_slice());
    assert_eq!(rt; timed.ios.len(), 2);
    assert_eq!(rt; timed.waits, 1);
    Ok(())
}

#[test]
fn faulty_times(rt: HostRuntime) -> Result<(), Fail> {
    let time = LogCause::BadNumber(LogNumber::Time);
    let empty = LogCause::BadLine(Misfit::EmptyWord);
    let count = LogCause::BadLine(Misfit::WordCount);
    let unknown = LogCause::BadLine(Misfit::UnknownCommand(2));
    for (lines, line, cause) in [
        (b"5 a add\n4 a open".as_slice(), 3, LogCause::EarlierTime),
        (b"5 a add\n4 a shut".as_slice(), 3, LogCause::EarlierTime),
        (
            b"5 a add\n6 a open\n5 a close".as_slice(),
            4,
            LogCause::EarlierTime,
        ),
        (b"a add".as_slice(), 2, time),
        (b"-1 a add".as_slice(), 2, time),
        (b"1.5 a add".as_slice(), 2, time),
        (b"18446744073709551616 a add".as_slice(), 2, time),
        (b"x shut".as_slice(), 2, time),
        (b"5".as_slice(), 2, count),
        (b"x".as_slice(), 2, count),
        (b"5 add".as_slice(), 2, count),
        (b"5 my file add".as_slice(), 2, count),
        (b"".as_slice(), 0, empty),
        (b"\n".as_slice(), 2, empty),
        (b" 5 a add".as_slice(), 2, empty),
        (b"5  a add".as_slice(), 2, empty),
        (b"x a add ".as_slice(), 2, empty),
        (b"5 a shut".as_slice(), 2, unknown),
        (b"5 a read 0 1".as_slice(), 2, LogCause::UnknownName),
        (
            b"5 a add\n5 a read 0 x\n4 a open".as_slice(),
            3,
            LogCause::BadNumber(LogNumber::Length),
        ),
    ] {
        let text = behind_header(rt.alloc(), lines)?;
        let owed = if lines.is_empty() {
            None
        } else {
            Some(LogFault { line, cause })
        };
        assert_eq!(rt; fault_of(rt.alloc(), &text), owed, "at {lines:?}");
    }
    Ok(())
}

#[test]
fn the_other_header_is_told_apart(rt: HostRuntime) {
    let fault = fault_of(rt.alloc(), PLAIN);
    assert_eq!(rt;
        fault.map(|fault| fault.cause),
        Some(LogCause::OtherVersion)
    );
    let fault = fault_of(rt.alloc(), b"fio version 1 iolog\n");
    assert_eq!(rt; fault.map(|fault| fault.cause), Some(LogCause::NoHeader));
    assert_eq!(rt; fault_of(rt.alloc(), b"fio version 3 iolog"), None);
}
