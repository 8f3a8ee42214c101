//! What each kind of step tells. These types are for the proofs alone.
ghost use Rattle.std.specs.Prelude.{[]};
ghost use Rattle.step_ledger.specs.Views.{viewing, first_view, other_views, both_views};
ghost use Rattle.tag_core.specs.Plays.{looked, looked_aside, claimed, gave, put_aside, swapped, kept_least, spilled, posted, took, note_read, entered, left, looked_all, turn_taken, enlisted, looked_at, told, got_up, fronted, ordered, counted, met, settled, waiters_settled};

use crate::record::View;
use atomic_table::{Join, Play, Split};
use step_ledger::{Collect, HandOut};

pub(crate) struct Looking;

impl<R> Play<R, View<R>> for Looking {
    ghost then = { looked };
}

pub(crate) struct LookingAside;

impl<R> Play<R, View<R>> for LookingAside {
    ghost then = { looked_aside };
}

pub(crate) struct Claiming;

impl<R> Play<R, View<R>> for Claiming {
    ghost then = { claimed };
}

pub(crate) struct Giving;

impl<R> Play<R, View<R>> for Giving {
    ghost then = { gave };
}

pub(crate) struct Putting;

impl<R> Play<R, View<R>> for Putting {
    ghost then = { put_aside };
}

pub(crate) struct Swapping;

impl<R> Play<R, View<R>> for Swapping {
    ghost then = { swapped };
}

pub(crate) struct Keeping;

impl<R> Play<R, View<R>> for Keeping {
    ghost then = { kept_least };
}

pub(crate) struct Spilling;

impl<R> Play<R, View<R>> for Spilling {
    ghost then = { spilled };
}

pub(crate) struct Posting;

impl<R> Play<R, View<R>> for Posting {
    ghost then = { posted };
}

pub(crate) struct Taking;

impl<R> Play<R, View<R>> for Taking {
    ghost then = { took };
}

pub(crate) struct ReadingNote;

impl<R> Play<R, View<R>> for ReadingNote {
    ghost then = { note_read };
}

pub(crate) struct Entering;

impl<R> Play<R, View<R>> for Entering {
    ghost then = { entered };
}

pub(crate) struct Leaving;

impl<R> Play<R, View<R>> for Leaving {
    ghost then = { left };
}

pub(crate) struct LookingAll;

impl<R> Play<R, View<R>> for LookingAll {
    ghost then = { looked_all };
}

pub(crate) struct TakingTurn;

impl<R> Play<R, View<R>> for TakingTurn {
    ghost then = { turn_taken };
}

pub(crate) struct Enlisting;

impl<R> Play<R, View<R>> for Enlisting {
    ghost then = { enlisted };
}

pub(crate) struct LookingAt;

impl<R> Play<R, View<R>> for LookingAt {
    ghost then = { looked_at };
}

pub(crate) struct Telling;

impl<R> Play<R, View<R>> for Telling {
    ghost then = { told };
}

pub(crate) struct GettingUp;

impl<R> Play<R, View<R>> for GettingUp {
    ghost then = { got_up };
}

pub(crate) struct Fronting;

impl<R> Play<R, View<R>> for Fronting {
    ghost then = { fronted };
}

pub(crate) struct Ordering;

impl<R> Play<R, View<R>> for Ordering {
    ghost then = { ordered };
}

pub(crate) struct Counting;

impl<R> Play<R, View<R>> for Counting {
    ghost then = { counted };
}

pub(crate) struct Meeting;

impl<R> Play<R, View<R>> for Meeting {
    ghost then = { met };
}

pub(crate) struct Settling;

impl<R> Play<R, View<R>> for Settling {
    ghost then = { settled };
}

pub(crate) struct SettlingWaiters;

impl<R> Play<R, View<R>> for SettlingWaiters {
    ghost then = { waiters_settled };
}

impl<R> Split<View<R>> for HandOut {
    ghost left = { other_views };

    ghost right = { first_view };
}

impl<R> Join<View<R>> for Collect {
    ghost both = { both_views };

    ghost spent = { viewing [] };
}
