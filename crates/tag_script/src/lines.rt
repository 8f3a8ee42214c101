//! The lines of answers.
ghost use Rattle.std.specs.Prelude.{◌≡◌, ◌++◌, OnOk, codes};
ghost use Rattle.tag_pool.specs.Texts.{shown_text, dump_text, field};
ghost use Rattle.tag_script.specs.Answers.{line_of, tag_line, batch_line, done_line, left_line, wakes_line, busy_line};
ghost use Rattle.tag_script.specs.Answers.{hindrance_text, not_resized_line};
ghost use Rattle.tag_script.specs.Faults.{number_of_tag_fault, number_of_wait_fault, number_of_resize_cause};

use crate::answer::Answer;
use crate::text::{end_line, push_field};
use std::alloc::AllocError;
use tag_pool::{write_dump, write_show};
use tag_queue::{Left, ResizeCause, Shown, TagFault, WaitFault, Wakes};

impl Answer {
    /// Appends the line of this answer. A show has five lines, and a dump one for every sixteen bytes, rounded up.
    pub fn push_to(&self, text: &mut Vec<u8>) -> Result<(), AllocError>
        ensures ok { OnOk result (text.new.items ≡ text.old.items ++ line_of self.now) }
    {
        match self {
            Answer::Tag(tag) => push_tag(text, *tag),
            Answer::Batch(won) => push_batch(text, *won),
            Answer::Done(woken) => push_done(text, *woken),
            Answer::Group(group) => push_line(text, b"group ", u64::from(*group)),
            Answer::Left(left) => push_left(text, *left),
            Answer::Wakes(wakes) => push_wakes(text, *wakes),
            Answer::Busy(tags) => push_busy(text, tags.as_slice()),
            Answer::Shown(shown) => push_shown(text, shown),
            Answer::Dump(bytes) => push_dump(text, bytes.as_slice()),
            Answer::Refused(fault) => push_line(text, b"refused ", number_of(*fault)),
            Answer::NotWaited(fault) => push_line(text, b"refused ", number_of_wait(*fault)),
            Answer::NotResized(cause) => push_not_resized(text, *cause),
        }
    }
}

/// Appends words, a number and a line feed.
fn push_line(text: &mut Vec<u8>, words: &[u8], number: u64) -> Result<(), AllocError>
    ensures ok { OnOk result (text.new.items ≡ text.old.items ++ (field words.now number ++ codes "\n")) }
{
    push_field(text, words, number)?;
    end_line(text)
}

fn push_words(text: &mut Vec<u8>, words: &[u8]) -> Result<(), AllocError>
    ensures ok { OnOk result (text.new.items ≡ text.old.items ++ words.now) }
{
    text.extend_from_slice(words)?;
    Ok(())
}

fn push_tag(text: &mut Vec<u8>, answer: Option<u32>) -> Result<(), AllocError>
    ensures ok { OnOk result (text.new.items ≡ text.old.items ++ tag_line answer) }
{
    match answer {
        Some(tag) => push_line(text, b"", u64::from(tag)),
        None => push_words(text, b"none\n"),
    }
}

fn push_batch(text: &mut Vec<u8>, answer: Option<(u32, u64)>) -> Result<(), AllocError>
    ensures ok { OnOk result (text.new.items ≡ text.old.items ++ batch_line answer) }
{
    match answer {
        Some((tag, bits)) => {
            push_field(text, b"mask ", bits)?;
            push_line(text, b" at ", u64::from(tag))
        }
        None => push_words(text, b"none\n"),
    }
}

fn push_done(text: &mut Vec<u8>, woken: u32) -> Result<(), AllocError>
    ensures ok { OnOk result (text.new.items ≡ text.old.items ++ done_line woken) }
{
    if woken == 0 {
        push_words(text, b"ok\n")
    } else {
        push_line(text, b"ok woken ", u64::from(woken))
    }
}

fn push_left(text: &mut Vec<u8>, left: Left) -> Result<(), AllocError>
    ensures ok { OnOk result (text.new.items ≡ text.old.items ++ left_line left) }
{
    match left {
        Left::Woken => push_words(text, b"woken\n"),
        Left::Unwoken => push_words(text, b"unwoken\n"),
    }
}

fn push_wakes(text: &mut Vec<u8>, wakes: Wakes) -> Result<(), AllocError>
    ensures ok { OnOk result (text.new.items ≡ text.old.items ++ wakes_line wakes) }
{
    push_field(text, b"counted=", wakes.counted)?;
    push_field(text, b" charged=", wakes.charged)?;
    push_field(text, b" index=", u64::from(wakes.index))?;
    push_line(text, b" active=", wakes.active)
}

fn push_busy(text: &mut Vec<u8>, tags: &[u32]) -> Result<(), AllocError>
    ensures ok { OnOk result (text.new.items ≡ text.old.items ++ busy_line tags.now) }
{
    push_words(text, b"busy")?;
    for tag in tags {
        push_field(text, b" ", u64::from(*tag))?;
    }
    end_line(text)
}

fn push_shown(text: &mut Vec<u8>, shown: &Shown) -> Result<(), AllocError>
    ensures ok { OnOk result (text.new.items ≡ text.old.items ++ shown_text shown.now) }
{
    match write_show(shown, text) {
        Ok(()) => Ok(()),
        Err(_) => Err(AllocError),
    }
}

fn push_dump(text: &mut Vec<u8>, bytes: &[u8]) -> Result<(), AllocError>
    ensures ok { OnOk result (text.new.items ≡ text.old.items ++ dump_text bytes.now) }
{
    match write_dump(bytes, text) {
        Ok(()) => Ok(()),
        Err(_) => Err(AllocError),
    }
}

fn push_not_resized(text: &mut Vec<u8>, cause: ResizeCause) -> Result<(), AllocError>
    ensures ok { OnOk result (text.new.items ≡ text.old.items ++ not_resized_line cause) }
{
    push_field(text, b"resize refused ", number_of_cause(cause))?;
    push_hindrance(text, cause)?;
    end_line(text)
}

/// Appends the numbers of a refused resize: tags in use, or waiting callers.
fn push_hindrance(text: &mut Vec<u8>, cause: ResizeCause) -> Result<(), AllocError>
    ensures ok { OnOk result (text.new.items ≡ text.old.items ++ hindrance_text cause) }
{
    match cause {
        ResizeCause::InUse(held, posted) => push_in_use(text, held, posted),
        ResizeCause::Waiting(count) => push_field(text, b" waiting=", u64::from(count)),
        ResizeCause::Missing(_) | ResizeCause::Memory | ResizeCause::DepthTooLarge => Ok(()),
    }
}

fn push_in_use(text: &mut Vec<u8>, held: u64, posted: u64) -> Result<(), AllocError>
    ensures ok { OnOk result (text.new.items ≡ text.old.items ++ (field (codes " held=") held ++ field (codes " posted=") posted)) }
{
    push_field(text, b" held=", held)?;
    push_field(text, b" posted=", posted)
}

/// The number of a refused resize in the output.
fn number_of_cause(cause: ResizeCause) -> u64
    ensures { result ≡ number_of_resize_cause cause }
{
    match cause {
        ResizeCause::Missing(_) => 1,
        ResizeCause::Memory => 3,
        ResizeCause::InUse(_, _) => 4,
        ResizeCause::DepthTooLarge => 5,
        ResizeCause::Waiting(_) => 6,
    }
}

/// The number of a refused command in the output.
fn number_of(fault: TagFault) -> u64
    ensures { result ≡ number_of_tag_fault fault }
{
    match fault {
        TagFault::NoSuchTag => 1,
        TagFault::NoReserved => 2,
        TagFault::NotHeld => 3,
        TagFault::NotPosted => 4,
        TagFault::BadCount => 5,
        TagFault::TooShallow => 6,
        TagFault::Spent => 7,
    }
}

/// The number of a refused wait in the output, or of the refused end of one.
fn number_of_wait(fault: WaitFault) -> u64
    ensures { result ≡ number_of_wait_fault fault }
{
    match fault {
        WaitFault::NoSuchTag => 1,
        WaitFault::Spent => 7,
        WaitFault::Waiting => 8,
        WaitFault::NotWaiting => 9,
    }
}
