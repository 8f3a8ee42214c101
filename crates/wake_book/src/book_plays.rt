//! What a teller learns from each kind of step on the book. These types exist only for the proofs.
ghost use Rattle.wake_book.specs.Charges.{looked_completions, looked_wakeups, adding, advancing};

use crate::steps::BookStep;
use atomic_table::Play;
use step_ledger::Records;

pub(crate) struct SeeCompletions;

impl Play<(), Records<BookStep>> for SeeCompletions {
    ghost then = { looked_completions };
}

pub(crate) struct SeeWakeups;

impl Play<(), Records<BookStep>> for SeeWakeups {
    ghost then = { looked_wakeups };
}

pub(crate) struct CountSome;

impl Play<(), Records<BookStep>> for CountSome {
    ghost then = { adding };
}

pub(crate) struct MoveOn;

impl Play<(), Records<BookStep>> for MoveOn {
    ghost then = { advancing };
}
