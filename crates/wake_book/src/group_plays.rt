//! What a waiter learns from each kind of step on the groups. These types exist only for the proofs.
ghost use Rattle.wake_book.specs.WaitPlays.{looked_active, looked_index, looked_group, raising, lowering};
ghost use Rattle.wake_book.specs.WaitPlays.{entering, granting, leaving, storing};

use crate::steps::GroupStep;
use atomic_table::Play;
use step_ledger::Records;

pub(crate) struct SeeActive;

impl Play<(), Records<GroupStep>> for SeeActive {
    ghost then = { looked_active };
}

pub(crate) struct SeeIndex;

impl Play<(), Records<GroupStep>> for SeeIndex {
    ghost then = { looked_index };
}

pub(crate) struct SeeGroup;

impl Play<(), Records<GroupStep>> for SeeGroup {
    ghost then = { looked_group };
}

pub(crate) struct RaiseActive;

impl Play<(), Records<GroupStep>> for RaiseActive {
    ghost then = { raising };
}

pub(crate) struct LowerActive;

impl Play<(), Records<GroupStep>> for LowerActive {
    ghost then = { lowering };
}

pub(crate) struct EnterGroup;

impl Play<(), Records<GroupStep>> for EnterGroup {
    ghost then = { entering };
}

pub(crate) struct GrantSome;

impl Play<(), Records<GroupStep>> for GrantSome {
    ghost then = { granting };
}

pub(crate) struct LeaveGroup;

impl Play<(), Records<GroupStep>> for LeaveGroup {
    ghost then = { leaving };
}

pub(crate) struct StoreIndex;

impl Play<(), Records<GroupStep>> for StoreIndex {
    ghost then = { storing };
}
