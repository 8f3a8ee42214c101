//! Texts, built from words and numbers.
ghost use Rattle.std.specs.Prelude.{◌≡◌, ◌++◌, IfOk, OnOk, codes};
ghost use Rattle.tag_script.specs.Faults.{number_of_setup_fault};
ghost use Rattle.tag_script.specs.Texts.{totals_text, faulty_text, setup_text};
ghost use Rattle.tag_pool.specs.Texts.{field};

use itoa::Buffer;
use std::alloc::{AllocError, Global};
use tag_lines::{FaultyLine, LINE_FEED};
use tag_model::Totals;
use tag_queue::QueueOpenFault;

/// Appends words and a number.
pub(crate) fn push_field(text: &mut Vec<u8>, words: &[u8], number: u64) -> Result<(), AllocError>
    ensures ok { OnOk result (text.new.items ≡ text.old.items ++ field words.now number) }
{
    let mut buffer = Buffer::new();
    text.extend_from_slice(words)?;
    text.extend_from_slice(buffer.format(number).as_bytes())?;
    Ok(())
}

/// Appends the four totals, each after its name.
pub(crate) fn push_totals(text: &mut Vec<u8>, totals: Totals) -> Result<(), AllocError>
    ensures ok { OnOk result (text.new.items ≡ text.old.items ++ totals_text totals) }
{
    push_field(text, b" got=", totals.got)?;
    push_field(text, b" back=", totals.back)?;
    push_field(text, b" held=", totals.held)?;
    push_field(text, b" posted=", totals.posted)?;
    Ok(())
}

/// Returns the line that reports a malformed line.
pub fn faulty_text(alloc: Global, fault: FaultyLine) -> Result<Vec<u8>, AllocError>
    ensures { IfOk result (λ text. text.items ≡ faulty_text fault) }
{
    let mut text = Vec::new(alloc);
    push_faulty(&mut text, fault)?;
    Ok(text)
}

/// Appends the line that reports a malformed line.
pub(crate) fn push_faulty(text: &mut Vec<u8>, fault: FaultyLine) -> Result<(), AllocError>
    ensures ok { OnOk result (text.new.items ≡ text.old.items ++ faulty_text fault) }
{
    push_field(text, b"line ", fault.number)?;
    push_field(text, b" refused ", fault.cause.number())?;
    end_line(text)
}

/// Returns the line that reports a refused setup.
pub fn setup_text(alloc: Global, fault: QueueOpenFault) -> Result<Vec<u8>, AllocError>
    ensures { IfOk result (λ text. text.items ≡ setup_text fault) }
{
    let mut text = Vec::new(alloc);
    push_setup(&mut text, fault)?;
    Ok(text)
}

/// Appends the line that reports a refused setup.
pub(crate) fn push_setup(text: &mut Vec<u8>, fault: QueueOpenFault) -> Result<(), AllocError>
    ensures ok { OnOk result (text.new.items ≡ text.old.items ++ setup_text fault) }
{
    push_field(text, b"setup refused ", number_of_setup(fault))?;
    end_line(text)
}

/// The number of a refused setup in the output.
fn number_of_setup(fault: QueueOpenFault) -> u64
    ensures { result ≡ number_of_setup_fault fault }
{
    match fault {
        QueueOpenFault::Memory => 1,
        QueueOpenFault::TotalTooLarge => 2,
        QueueOpenFault::ReservedTooLarge => 3,
        QueueOpenFault::ShiftTooLarge => 4,
        QueueOpenFault::CallerCount => 5,
        QueueOpenFault::LifeTooLong => 6,
        QueueOpenFault::CapTooLarge => 7,
    }
}

/// Appends a line feed.
pub(crate) fn end_line(text: &mut Vec<u8>) -> Result<(), AllocError>
    ensures ok { OnOk result (text.new.items ≡ text.old.items ++ codes "\n") }
{
    text.push(LINE_FEED)?;
    Ok(())
}
