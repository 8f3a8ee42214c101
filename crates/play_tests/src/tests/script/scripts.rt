//! Scripts and their output.
use itoa::Buffer;
use std::process::Abort;
use std::sync::Wait;
use std::test::*;
use tag_lines::MAX_INPUT;
use tag_script::{Ending, ScriptOptions, answer_script};

/// Plays a script, and compares the text and the ending.
pub(crate) fn expect<R: Abort + AllocGlobal + Wait>(
    rt: &R,
    options: &ScriptOptions,
    script: &str,
    text: &str,
) -> Result<(), Fail> {
    assert!(rt; script.len() <= MAX_INPUT);
    let (written, ending) = answer_script(rt, rt.alloc(), options, script.as_bytes())?;
    let refused = text.starts_with("line ") || text.starts_with("setup ");
    assert_eq!(rt; written.as_slice(), text.as_bytes(), "at {script}");
    assert_eq!(rt; ending != Ending::Done, refused, "at {script}");
    Ok(())
}

/// The same, both over plain words and over shared tags.
pub(crate) fn expect_both<R: Abort + AllocGlobal + Wait>(
    rt: &R,
    options: &ScriptOptions,
    script: &str,
    text: &str,
) -> Result<(), Fail> {
    for plain in [true, false] {
        expect(rt, &ScriptOptions { plain, ..*options }, script, text)?;
    }
    Ok(())
}

/// Options for one caller with this many tags.
pub(crate) fn options(tags: u32, shift: Option<u32>) -> ScriptOptions {
    ScriptOptions {
        tags,
        reserved: 0,
        shift,
        round_robin: false,
        min_shallow: None,
        callers: 1,
        life: 281_474_976_710_656,
        plain: true,
    }
}

#[test]
fn tags_come_back(rt: HostRuntime) -> Result<(), Fail> {
    let script = "0 get\n0 get\n0 clear 0\n0 get\n0 get\n0 get\n0 get\n0 show\n";
    let text = "0\n1\nok\n2\n3\n0\nnone\n\
        depth=4\nbusy=4\ncleared=0\nbits_per_word=4\nmap_nr=1\n\
        total got=5 back=1 held=4 posted=0\n";
    expect_both(&rt, &options(4, Some(2)), script, text)
}

#[test]
fn a_fresh_map_is_shown(rt: HostRuntime) -> Result<(), Fail> {
    let text = "depth=8\nbusy=0\ncleared=0\nbits_per_word=2\nmap_nr=4\n\
        total got=0 back=0 held=0 posted=0\n";
    expect_both(&rt, &options(8, None), "0 show\n", text)
}

#[test]
fn no_tags(rt: HostRuntime) -> Result<(), Fail> {
    let text = "none\nbusy\ntotal got=0 back=0 held=0 posted=0\n";
    expect_both(&rt, &options(0, None), "0 get\n0 busy\n", text)?;
    let text = "none\ntotal got=0 back=0 held=0 posted=0\n";
    expect_both(&rt, &options(0, None), "0 get\n0 dump\n", text)
}

#[test]
fn a_large_shift_is_refused(rt: HostRuntime) -> Result<(), Fail> {
    expect_both(&rt, &options(8, Some(7)), "0 get\n", "setup refused 4\n")
}

#[test]
fn a_tag_is_found_past_a_full_word(rt: HostRuntime) -> Result<(), Fail> {
    let script = "0 get\n0 get\n0 get\n0 get\n0 get\n0 get\n0 get\n0 get\n0 get\n";
    let text = "0\n1\n2\n3\n4\n5\n6\n7\nnone\ntotal got=8 back=0 held=8 posted=0\n";
    expect_both(&rt, &options(8, Some(2)), script, text)
}

#[test]
fn round_robin(rt: HostRuntime) -> Result<(), Fail> {
    let around = ScriptOptions {
        round_robin: true,
        ..options(4, Some(2))
    };
    let script = "0 get\n0 clear 0\n0 get\n0 clear 1\n0 get\n0 clear 2\n0 get\n0 clear 3\n0 get\n";
    let text = "0\nok\n1\nok\n2\nok\n3\nok\n0\ntotal got=5 back=4 held=1 posted=0\n";
    expect_both(&rt, &around, script, text)
}

#[test]
fn only_a_tag_that_is_held_is_cleared(rt: HostRuntime) -> Result<(), Fail> {
    let script = "0 clear 0\n0 get\n0 clear 0\n0 clear 0\n0 clear 8\n";
    let text = "refused 3\n0\nok\nrefused 3\nrefused 1\ntotal got=1 back=1 held=0 posted=0\n";
    expect_both(&rt, &options(8, None), script, text)
}

#[test]
fn round_robin_misses_no_tag_behind_its_hint_alone(rt: HostRuntime) -> Result<(), Fail> {
    let around = ScriptOptions {
        round_robin: true,
        ..options(4, Some(2))
    };
    let script = "0 get\n0 get\n0 get\n0 get\n0 clear 0\n0 clear 1\n0 get\n0 get\n0 get\n";
    let text = "0\n1\n2\n3\nok\nok\n0\n1\nnone\ntotal got=6 back=2 held=4 posted=0\n";
    expect_both(&rt, &around, script, text)
}

#[test]
fn shallow(rt: HostRuntime) -> Result<(), Fail> {
    let script =
        "0 shallow 2\n0 shallow 2\n0 shallow 2\n0 shallow 2\n0 shallow 2\n0 get\n0 shallow 0\n";
    let text = "0\n4\nnone\nnone\nnone\n1\nrefused 6\ntotal got=3 back=0 held=3 posted=0\n";
    expect_both(&rt, &options(8, Some(2)), script, text)
}

#[test]
fn shallow_by_share(rt: HostRuntime) -> Result<(), Fail> {
    let text = "8\nnone\ntotal got=1 back=0 held=1 posted=0\n";
    expect_both(
        &rt,
        &options(10, Some(2)),
        "0 shallow 1\n0 shallow 1\n",
        text,
    )
}

#[test]
fn least_shallow(rt: HostRuntime) -> Result<(), Fail> {
    let least = ScriptOptions {
        min_shallow: Some(2),
        ..options(8, None)
    };
    let text = "refused 6\ntotal got=0 back=0 held=0 posted=0\n";
    expect_both(&rt, &least, "0 shallow 1\n", text)
}

#[test]
fn batches(rt: HostRuntime) -> Result<(), Fail> {
    let script = "0 get\n0 get\n0 get\n0 get\n0 get\n0 clear 1\n0 clear 3\n\
        0 batch 3\n0 batch 5\n0 batch 0\n0 batch 9\n";
    let text = "0\n1\n2\n3\n4\nok\nok\nmask 5 at 1\nnone\nrefused 5\nrefused 5\n\
        total got=7 back=2 held=5 posted=0\n";
    expect_both(&rt, &options(8, Some(3)), script, text)
}

#[test]
fn round_robin_batch(rt: HostRuntime) -> Result<(), Fail> {
    let around = ScriptOptions {
        round_robin: true,
        ..options(8, Some(2))
    };
    let text = "none\nrefused 5\ntotal got=0 back=0 held=0 posted=0\n";
    expect_both(&rt, &around, "0 batch 2\n0 batch 5\n", text)
}

#[test]
fn busy_show_and_dump(rt: HostRuntime) -> Result<(), Fail> {
    let script = "0 get\n0 get\n0 get\n0 get\n0 get\n0 get\n0 get\n0 get\n0 get\n0 get\n\
        0 clear 1\n0 clear 2\n0 clear 3\n0 clear 4\n0 clear 5\n0 clear 6\n0 clear 7\n0 clear 8\n\
        0 busy\n0 show\n0 dump\n";
    let text = "0\n1\n2\n3\n4\n5\n6\n7\n8\n9\nok\nok\nok\nok\nok\nok\nok\nok\n\
        busy 0 9\ndepth=16\nbusy=2\ncleared=8\nbits_per_word=4\nmap_nr=4\n\
        00000000: 0102\ntotal got=10 back=8 held=2 posted=0\n";
    expect_both(&rt, &options(16, None), script, text)
}

#[test]
fn round_robin_misses(rt: HostRuntime) -> Result<(), Fail> {
    let around = ScriptOptions {
        round_robin: true,
        ..options(4, Some(2))
    };
    let script = "0 get\n0 get\n0 get\n0 get\n0 clear-batch 0 1\n0 get\n0 clear-batch 0\n\
        0 get\n0 get\n0 get\n";
    let text = "0\n1\n2\n3\nok\n0\nok\n1\nnone\n0\ntotal got=7 back=3 held=4 posted=0\n";
    expect_both(&rt, &around, script, text)
}

#[test]
fn batches_of_a_list_given_back(rt: HostRuntime) -> Result<(), Fail> {
    let script = "0 get\n0 get\n0 get\n0 get\n0 get\n0 clear-batch 1 3\n0 batch 3\n0 batch 5\n\
        0 batch 0\n0 batch 9\n0 clear-batch 0 0\n";
    let text = "0\n1\n2\n3\n4\nok\nmask 5 at 1\nnone\nrefused 5\nrefused 5\nrefused 3\n\
        total got=7 back=2 held=5 posted=0\n";
    expect_both(&rt, &options(8, Some(3)), script, text)
}

#[test]
fn lists_are_refused_by_their_first_cause(rt: HostRuntime) -> Result<(), Fail> {
    for (list, text) in [
        ("0 1 2 3 0", "refused 3\n"),
        ("3 8", "refused 1\n"),
        ("0 3 1", "refused 3\n"),
        ("0 0", "refused 3\n"),
        ("1 0", "ok\n"),
    ] {
        let mut script = String::new(rt.alloc());
        script.push_str("0 get\n0 get\n0 clear-batch ")?;
        script.push_str(list)?;
        let mut wanted = String::new(rt.alloc());
        wanted.push_str("0\n1\n")?;
        wanted.push_str(text)?;
        let back = if text == "ok\n" {
            "total got=2 back=2 held=0 posted=0\n"
        } else {
            "total got=2 back=0 held=2 posted=0\n"
        };
        wanted.push_str(back)?;
        expect_both(&rt, &options(8, Some(2)), &script, &wanted)?;
    }
    Ok(())
}

#[test]
fn cleared_lists_are_free_at_once(rt: HostRuntime) -> Result<(), Fail> {
    let script = "0 get\n0 get\n0 get\n0 clear 2\n0 clear-batch 1 0\n0 show\n0 get\n";
    let text = "0\n1\n2\nok\nok\n\
        depth=4\nbusy=0\ncleared=1\nbits_per_word=4\nmap_nr=1\n0\n\
        total got=4 back=3 held=1 posted=0\n";
    expect_both(&rt, &options(4, Some(2)), script, text)
}

/// Lists with as many tags as a batch clear allows, and with one more.
#[test]
fn long_lists(rt: HostRuntime) -> Result<(), Fail> {
    for (length, answer, totals) in [
        (64, "ok\n", "total got=65 back=64 held=1 posted=0\n"),
        (65, "refused 5\n", "total got=65 back=0 held=65 posted=0\n"),
    ] {
        let mut script = String::new(rt.alloc());
        let mut wanted = String::new(rt.alloc());
        let mut buffer = Buffer::new();
        for tag in 0u32..65 {
            script.push_str("0 get\n")?;
            wanted.push_str(buffer.format(tag))?;
            wanted.push_str("\n")?;
        }
        script.push_str("0 clear-batch")?;
        for tag in 0u32..length {
            script.push_str(" ")?;
            script.push_str(buffer.format(tag))?;
        }
        wanted.push_str(answer)?;
        wanted.push_str(totals)?;
        expect_both(&rt, &options(128, Some(4)), &script, &wanted)?;
    }
    Ok(())
}
