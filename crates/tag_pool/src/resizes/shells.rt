//! Takes hands apart into ordinary callers, which can move to the next map, and shells, and puts them together again.
ghost use Rattle.std.specs.Prelude.{◌≡◌, ◌≤◌, [], length, map, IfOk, vec_capacity};
ghost use Rattle.tag_core.specs.Callers.{record_of};
ghost use Rattle.tag_pool.specs.Opening.{ordinary_part};
ghost use Rattle.tag_pool.specs.Shells.{shell_of, FitShells};

use crate::hand::Hand;
use crate::side::Side;
use std::alloc::{AllocError, Global};
use tag_core::Caller;
use tag_search::Hint;

/// A hand without its ordinary caller.
#[derive(Drop)]
pub(crate) struct Shell<R> {
    pub(crate) reserved_count: u32,
    pub(crate) reserved: Side<R>,
    /// Where its next get of an ordinary tag starts.
    pub(crate) hint: Hint,
    pub(crate) number: u32,
}

/// Room for the parts of all hands and for the hands put together again, and the slots of the next map: the allocations
/// that are made before the hands are taken apart.
#[derive(Drop)]
pub(crate) struct Buffers<R> {
    pub(crate) callers: Vec<Caller<R>>,
    pub(crate) shells: Vec<Shell<R>>,
    pub(crate) hands: Vec<Hand<R>>,
    pub(crate) slots: Vec<R>,
    ghost empty: { (callers.items ≡ []) × (shells.items ≡ []) × (hands.items ≡ []) },
}

impl<R: Copy> Buffers<R> {
    /// Reserves room for `count` hands, and makes `depth` slots that contain `fill`.
    pub(crate) fn open(
        alloc: Global,
        count: usize,
        depth: u32,
        fill: R,
    ) -> Result<Buffers<R>, AllocError>
        ensures room { IfOk result (λ buffers. (count ≤ vec_capacity buffers.callers) × (count ≤ vec_capacity buffers.shells)
            × (count ≤ vec_capacity buffers.hands)) }
        ensures slots { IfOk result (λ buffers. length buffers.slots.items ≡ depth) }
    {
        let callers = Vec::with_capacity(alloc, count)?;
        let shells = Vec::with_capacity(alloc, count)?;
        let hands = Vec::with_capacity(alloc, count)?;
        let slots = vec![in alloc; fill; depth as usize]?;
        Ok(Buffers {
            callers,
            shells,
            hands,
            slots,
        })
    }
}

/// Takes the hands apart into their ordinary callers and their shells, both in the hands' order.
pub(crate) fn part<R>(
    hands: Vec<Hand<R>>,
    mut callers: Vec<Caller<R>>,
    mut shells: Vec<Shell<R>>,
) -> (Vec<Caller<R>>, Vec<Shell<R>>)
    requires empty { (callers.items ≡ []) × (shells.items ≡ []) }
    requires room { (length hands.items ≤ vec_capacity callers) × (length hands.items ≤ vec_capacity shells) }
    ensures callers { result.0.items ≡ map ordinary_part hands.items }
    ensures shells { result.1.items ≡ map shell_of hands.items }
{
    let mut hands = hands.into_iter();
    while let Some(hand) = hands.next() {
        let Hand {
            reserved_count,
            reserved,
            ordinary,
        } = hand;
        let Side {
            hint,
            number,
            caller,
        } = ordinary;
        callers.push_reserved(caller);
        shells.push_reserved(Shell {
            reserved_count,
            reserved,
            hint,
            number,
        });
    }
    hands.destroy_empty();
    (callers, shells)
}

/// Puts the hands together from these callers and shells, in the same order.
pub(crate) fn unite<R>(
    callers: Vec<Caller<R>>,
    shells: Vec<Shell<R>>,
    mut hands: Vec<Hand<R>>,
) -> Vec<Hand<R>>
    requires empty { hands.items ≡ [] }
    requires room { length callers.items ≤ vec_capacity hands }
    requires fit { FitShells callers.items shells.items }
    ensures callers { map ordinary_part result.items ≡ callers.items }
    ensures shells { map shell_of result.items ≡ shells.items }
{
    let mut callers = callers.into_iter();
    let mut shells = shells.into_iter();
    while let Some(caller) = callers.next() {
        let Some(shell) = shells.next() else {
            unreachable!()
        };
        hands.push_reserved(hand_of(caller, shell));
    }
    hands
}

fn hand_of<R>(caller: Caller<R>, shell: Shell<R>) -> Hand<R>
    requires { (record_of caller).number ≡ shell.number }
    ensures caller { ordinary_part result ≡ caller }
    ensures shell { shell_of result ≡ shell }
{
    let Shell {
        reserved_count,
        reserved,
        hint,
        number,
    } = shell;
    Hand {
        reserved_count,
        reserved,
        ordinary: Side {
            hint,
            number,
            caller,
        },
    }
}
