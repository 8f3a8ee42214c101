//! Scripts of callers that share tags.
use crate::tests::script::scripts::{expect, options};
use std::test::*;
use tag_script::ScriptOptions;

/// Options for this many callers that share this many tags.
fn shared(tags: u32, callers: u32) -> ScriptOptions {
    ScriptOptions {
        callers,
        plain: false,
        ..options(tags, None)
    }
}

#[test]
fn reserved_tags_are_apart(rt: HostRuntime) -> Result<(), Fail> {
    let some = ScriptOptions {
        reserved: 2,
        ..shared(6, 1)
    };
    let script = "0 get-reserved\n0 get-reserved\n0 get-reserved\n0 get\n";
    let text = "0\n1\nnone\n2\ntotal got=3 back=0 held=3 posted=0\n";
    expect(&rt, &some, script, text)?;
    let script =
        "0 get-reserved\n0 get\n0 clear 0\n0 busy\n0 show reserved\n0 dump reserved\n0 clear-batch 0\n";
    let text = "0\n2\nok\nbusy 2\ndepth=2\nbusy=0\ncleared=1\nbits_per_word=64\nmap_nr=1\n\
        00000000: 00\nrefused 1\ntotal got=2 back=1 held=1 posted=0\n";
    expect(&rt, &some, script, text)?;
    let script = "0 get-reserved\n0 show reserved\n0 dump reserved\n";
    let text = "refused 2\ndepth=0\nbusy=0\ncleared=0\nbits_per_word=64\nmap_nr=0\n\
        total got=0 back=0 held=0 posted=0\n";
    expect(&rt, &shared(6, 1), script, text)
}

#[test]
fn a_tag_is_handed_over(rt: HostRuntime) -> Result<(), Fail> {
    let script =
        "0 get\n1 clear 0\n0 post 0\n1 take 0\n0 take 0\n0 clear 0\n1 clear 0\n0 clear 4\n";
    let text = "0\nrefused 3\nok\nok\nrefused 4\nrefused 3\nok\nrefused 1\n\
        total got=1 back=1 held=0 posted=0\n";
    expect(&rt, &shared(4, 2), script, text)
}

#[test]
fn what_one_caller_holds_no_other_gets(rt: HostRuntime) -> Result<(), Fail> {
    let script = "0 get\n1 get\n1 batch 1\n2 get\n0 post 0\n2 get\n1 busy\n2 take 0\n0 clear 1\n";
    let text = "0\n1\nmask 1 at 2\n3\nok\nnone\nbusy 0 1 2 3\nok\nrefused 3\n\
        total got=4 back=0 held=4 posted=0\n";
    expect(&rt, &shared(4, 3), script, text)
}

/// The gets of both callers begin at tag 0, and looks report the tags of both.
#[test]
fn callers_begin_at_the_first_tag(rt: HostRuntime) -> Result<(), Fail> {
    let script =
        "0 get\n1 get\n0 clear 0\n1 get\n0 show\n0 busy\n0 dump\n1 clear 2\n0 get\n1 get\n0 get\n";
    let text = "0\n1\nok\n2\ndepth=16\nbusy=2\ncleared=1\nbits_per_word=4\nmap_nr=4\nbusy 1 2\n\
        00000000: 0600\nok\n3\n0\n2\ntotal got=6 back=2 held=4 posted=0\n";
    expect(&rt, &shared(16, 2), script, text)
}

/// Both callers use words of the size asked for, and a batch is bounded by it.
#[test]
fn callers_share_words_of_two_tags(rt: HostRuntime) -> Result<(), Fail> {
    let small = ScriptOptions {
        shift: Some(1),
        ..shared(6, 2)
    };
    let script = "0 get\n1 get\n1 get\n0 show\n1 batch 2\n1 batch 3\n";
    let text = "0\n1\n2\ndepth=6\nbusy=3\ncleared=0\nbits_per_word=2\nmap_nr=3\nmask 3 at 4\n\
        refused 5\ntotal got=5 back=0 held=5 posted=0\n";
    expect(&rt, &small, script, text)
}

#[test]
fn waiters_are_woken_by_batches(rt: HostRuntime) -> Result<(), Fail> {
    let script = "0 get\n0 get\n0 get\n1 wait\n0 clear 0\n0 clear 1\n0 clear 2\n0 wakes\n\
        1 leave\n1 wait\n1 leave\n0 get\n0 clear 3\n0 wakes\n";
    let text = "0\n1\n2\ngroup 0\nok\nok woken 1\nok\ncounted=3 charged=2 index=0 active=1\n\
        woken\ngroup 1\nunwoken\n3\nok\ncounted=3 charged=2 index=0 active=0\n\
        total got=4 back=4 held=0 posted=0\n";
    expect(&rt, &shared(16, 2), script, text)
}

#[test]
fn waits_are_refused(rt: HostRuntime) -> Result<(), Fail> {
    let script = "0 get\n1 wait\n1 wait\n0 clear 0\n0 wakes\n1 leave\n1 leave\n";
    let text = "0\ngroup 0\nrefused 8\nok woken 1\ncounted=1 charged=1 index=1 active=1\nwoken\n\
        refused 9\ntotal got=1 back=1 held=0 posted=0\n";
    expect(&rt, &shared(8, 2), script, text)
}

#[test]
fn a_life_ends(rt: HostRuntime) -> Result<(), Fail> {
    let short = ScriptOptions {
        life: 2,
        ..shared(8, 1)
    };
    let text = "0\n1\nrefused 7\ntotal got=2 back=0 held=2 posted=0\n";
    expect(&rt, &short, "0 get\n0 get\n0 get\n", text)
}

#[test]
fn tags_are_resized(rt: HostRuntime) -> Result<(), Fail> {
    let eight = ScriptOptions {
        shift: Some(0),
        ..shared(8, 1)
    };
    let script =
        "0 get\n0 get\n0 get\n0 get\n0 resize 2\n0 clear 0\n0 clear 1\n0 clear 2\n0 clear 3\n\
        0 resize 2\n0 get\n0 get\n0 get\n";
    let text = "0\n1\n2\n3\nresize refused 4 held=4 posted=0\nok\nok\nok\nok\nok\n1\n0\nnone\n\
        total got=6 back=4 held=2 posted=0\n";
    expect(&rt, &eight, script, text)
}

#[test]
fn waiters_hinder_a_resize(rt: HostRuntime) -> Result<(), Fail> {
    let script =
        "0 get\n0 get\n0 get\n1 wait\n0 resize 8\n0 clear 0\n0 clear 1\n1 leave\n0 clear 2\n\
        1 wait\n0 resize 8\n1 leave\n0 resize 10241\n0 resize 8\n1 wait\n0 get\n0 clear 0\n0 wakes\n1 leave\n";
    let text =
        "0\n1\n2\ngroup 0\nresize refused 4 held=3 posted=0\nok\nok woken 1\nwoken\nok\ngroup 1\n\
        resize refused 6 waiting=1\nunwoken\nresize refused 5\nok\ngroup 2\n0\nok woken 1\n\
        counted=3 charged=3 index=3 active=1\nwoken\ntotal got=4 back=4 held=0 posted=0\n";
    expect(&rt, &shared(16, 2), script, text)
}

#[test]
fn reserved_tags_bound_a_resize(rt: HostRuntime) -> Result<(), Fail> {
    let some = ScriptOptions {
        reserved: 2,
        ..shared(6, 1)
    };
    let script =
        "0 resize 1\n0 get-reserved\n0 resize 4\n0 clear 0\n0 resize 2\n0 get\n0 resize 3\n0 get\n0 post 2\n0 resize 3\n";
    let text = "resize refused 5\n0\nresize refused 4 held=1 posted=0\nok\nok\nnone\nok\n2\nok\n\
        resize refused 4 held=0 posted=1\ntotal got=2 back=1 held=0 posted=1\n";
    expect(&rt, &some, script, text)
}

#[test]
fn shared_setups_are_refused_by_their_first_cause(rt: HostRuntime) -> Result<(), Fail> {
    let long = 281_474_976_710_657;
    for (tags, reserved, shift, callers, text) in [
        (10_241, 10_242, 7, 0, "setup refused 2\n"),
        (10_240, 10_241, 7, 0, "setup refused 3\n"),
        (10_240, 10_240, 7, 0, "setup refused 4\n"),
        (10_240, 10_240, 6, 0, "setup refused 5\n"),
        (10_240, 10_240, 6, 65, "setup refused 5\n"),
        (10_240, 10_240, 6, 64, "setup refused 6\n"),
    ] {
        let refused = ScriptOptions {
            reserved,
            shift: Some(shift),
            life: long,
            ..shared(tags, callers)
        };
        expect(&rt, &refused, "", text)?;
    }
    Ok(())
}
