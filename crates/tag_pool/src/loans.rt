//! Hands that lend their records, so that all hands of a pool are together for a while, and get them back.
ghost use Rattle.std.specs.Prelude.{◌≡◌, ◌∷◌, []};
ghost use Rattle.step_ledger.specs.Views.{rest_of};
ghost use Rattle.tag_core.specs.Callers.{record_of};
ghost use Rattle.tag_core.specs.Lending.{caller_before};
ghost use Rattle.tag_pool.specs.Sides.{caller_of, hint_of, number_of};
ghost use Rattle.tag_pool.specs.Sets.{InBoth};

use crate::gather::together::Together;
use crate::hand::Hand;
use crate::pool::Pool;
use crate::side::Side;
use std::snapshot::Snapshot;
use tag_core::{Gathering, Lender, Loans, Map};
use tag_search::Hint;

/// A side whose caller has lent its record.
#[derive(Drop)]
pub(crate) struct LentSide<R> {
    pub(crate) hint: Hint,
    pub(crate) number: u32,
    pub(crate) lender: Lender<R>,
    /// The side before its caller lent its record, as contracts see it.
    pub(crate) was: Snapshot<Side<R>>,
    ghost lent: { caller_before lender ≡ caller_of was.value },
    ghost same: { (hint ≡ hint_of was.value) × (number ≡ number_of was.value) },
}

/// A hand whose callers have lent their records.
#[derive(Drop)]
pub(crate) struct LentHand<R> {
    pub(crate) reserved_count: u32,
    pub(crate) reserved: LentSide<R>,
    pub(crate) ordinary: LentSide<R>,
}

/// The records of all hands of a pool, so that nobody else acts on it.
#[derive(Drop)]
pub(crate) struct Lent<R> {
    pub(crate) reserved: Loans<R>,
    pub(crate) ordinary: Loans<R>,
}

impl<R> Side<R> {
    ghost use Rattle.tag_core.specs.Gathering.{IsGatheringOf, gathered};
    ghost use Rattle.tag_pool.specs.Sides.{IsSideOf};
    ghost use Rattle.tag_pool.specs.Loans.{side_before};

    /// Starts to bring the map's callers together, with that of this side.
    fn start_lending(self, map: &Map<R>) -> (Gathering<R>, LentSide<R>)
        requires { IsSideOf map.now self }
        ensures map { IsGatheringOf map.now result.0 }
        ensures gathered { gathered result.0 ≡ record_of (caller_of self) ∷ [] }
        ensures side { side_before result.1 ≡ self }
    {
        let was = Snapshot::of(&self);
        let Side {
            hint,
            number,
            caller,
        } = self;
        let (first, lender) = map.start_lending(caller);
        let lent = LentSide {
            hint,
            number,
            lender,
            was,
        };
        (first, lent)
    }

    /// Has the side's caller lend its record to those gathered.
    fn lend(self, map: &Map<R>, all: &mut Gathering<R>) -> LentSide<R>
        requires side { IsSideOf map.now self }
        requires map { IsGatheringOf map.now all.old }
        ensures map { IsGatheringOf map.now all.new }
        ensures gathered { gathered all.new ≡ record_of (caller_of self) ∷ gathered all.old }
        ensures side { side_before result ≡ self }
    {
        let was = Snapshot::of(&self);
        let Side {
            hint,
            number,
            caller,
        } = self;
        let lender = all.lend(map, caller);
        LentSide {
            hint,
            number,
            lender,
            was,
        }
    }
}

impl<R> LentSide<R> {
    ghost use Rattle.tag_core.specs.Lending.{lent, AreLoansOf};
    ghost use Rattle.tag_pool.specs.Sides.{IsSideOf, IsUnchanged};
    ghost use Rattle.tag_pool.specs.Loans.{side_before};

    /// Returns the side, whose caller lent its record last, with its record.
    fn take_back(self, map: &Map<R>, loans: &mut Loans<R>) -> Side<R>
        requires map { AreLoansOf map.now loans.old }
        requires side { IsSideOf map.now (side_before self) }
        requires latest { lent loans.old ≡ record_of (caller_of (side_before self)) ∷ rest_of (lent loans.old) }
        ensures map { AreLoansOf map.now loans.new }
        ensures side { IsSideOf map.now result }
        ensures unchanged { IsUnchanged (side_before self) result }
        ensures rest { lent loans.new ≡ rest_of (lent loans.old) }
    {
        let LentSide {
            hint,
            number,
            lender,
            was: _,
        } = self;
        let caller = loans.give_back(map, lender);
        Side {
            hint,
            number,
            caller,
        }
    }
}

impl<R> Pool<R> {
    ghost use Rattle.tag_pool.specs.Gathering.{gathered_of, IsTogetherOf};
    ghost use Rattle.tag_pool.specs.Hands.{IsHandOf, caller_of as caller_in};
    ghost use Rattle.tag_pool.specs.Loans.{hand_before};

    /// Starts to bring the pool's hands together, with this one.
    pub(crate) fn start_lending(&self, hand: Hand<R>) -> (Together<R>, LentHand<R>)
        requires { IsHandOf self.now hand }
        ensures pool { IsTogetherOf self.now result.0 }
        ensures gathered { InBoth (λ kind. gathered_of result.0 kind ≡ record_of (caller_in hand kind) ∷ []) }
        ensures hand { hand_before result.1 ≡ hand }
    {
        let Hand {
            reserved_count,
            reserved,
            ordinary,
        } = hand;
        let (first, reserved) = reserved.start_lending(&self.reserved);
        let (rest, ordinary) = ordinary.start_lending(&self.ordinary);
        let together = Together {
            reserved: first,
            ordinary: rest,
        };
        let lent = LentHand {
            reserved_count,
            reserved,
            ordinary,
        };
        (together, lent)
    }
}

impl<R> Together<R> {
    ghost use Rattle.tag_pool.specs.Gathering.{IsTogetherOf, Joins};
    ghost use Rattle.tag_pool.specs.Hands.{IsHandOf};
    ghost use Rattle.tag_pool.specs.Loans.{hand_before};

    /// Has a hand lend its records to those gathered.
    pub(crate) fn lend(&mut self, pool: &Pool<R>, hand: Hand<R>) -> LentHand<R>
        requires hand { IsHandOf pool.now hand }
        requires pool { IsTogetherOf pool.now self.old }
        ensures pool { IsTogetherOf pool.now self.new }
        ensures gathered { Joins hand self.old self.new }
        ensures hand { hand_before result ≡ hand }
    {
        let Hand {
            reserved_count,
            reserved,
            ordinary,
        } = hand;
        LentHand {
            reserved_count,
            reserved: reserved.lend(&pool.reserved, &mut self.reserved),
            ordinary: ordinary.lend(&pool.ordinary, &mut self.ordinary),
        }
    }
}

impl<R> Lent<R> {
    ghost use Rattle.tag_pool.specs.Hands.{IsHandOf, caller_of as caller_in};
    ghost use Rattle.tag_pool.specs.Holding.{IsUnchanged};
    ghost use Rattle.tag_pool.specs.Loans.{AreLoansOf, hand_before, lent_of};

    /// Returns the hand that lent its records last, unchanged.
    pub(crate) fn give_back(&mut self, pool: &Pool<R>, hand: LentHand<R>) -> Hand<R>
        requires pool { AreLoansOf pool.now self.old }
        requires hand { IsHandOf pool.now (hand_before hand) }
        requires latest { InBoth (λ kind. lent_of self.old kind
            ≡ record_of (caller_in (hand_before hand) kind) ∷ rest_of (lent_of self.old kind)) }
        ensures pool { AreLoansOf pool.now self.new }
        ensures hand { IsHandOf pool.now result }
        ensures unchanged { IsUnchanged (hand_before hand) result }
        ensures rest { InBoth (λ kind. lent_of self.new kind ≡ rest_of (lent_of self.old kind)) }
    {
        let LentHand {
            reserved_count,
            reserved,
            ordinary,
        } = hand;
        Hand {
            reserved_count,
            reserved: reserved.take_back(&pool.reserved, &mut self.reserved),
            ordinary: ordinary.take_back(&pool.ordinary, &mut self.ordinary),
        }
    }
}
