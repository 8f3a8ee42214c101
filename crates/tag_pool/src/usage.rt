//! Counts the tags that are in use, and finds who waits, while all hands of a pool are together.
ghost use Rattle.std.specs.Prelude.{◌≡◌, ◌++◌, All, vec_len, vec_capacity};
ghost use Rattle.step_ledger.specs.Gather.{HasAll};
ghost use Rattle.tag_core.specs.Gathering.{gathered, IsGatheringOf, numbers};
ghost use Rattle.tag_core.specs.Lending.{AreLoansOf as are_loans_of, BeginsWith, lent};
ghost use Rattle.tag_pool.specs.Gathering.{gathered_of, IsTogetherOf, numbers_of, records_of, shape_of};
ghost use Rattle.tag_pool.specs.Hands.{IsHandOf, hands_of};
ghost use Rattle.tag_pool.specs.Loans.{AreLoansOf, lent_of};
ghost use Rattle.tag_pool.specs.Using.{AreUnchanged, IsSetUsage, IsUsage};
ghost use Rattle.tag_pool.specs.Sets.{InBoth};

use crate::gather::together::Together;
use crate::hand::Hand;
use crate::loans::Lent;
use crate::pool::Pool;
use tag_core::{Gathering, Loans, Map};
use tag_model::Totals;

/// What the hands of a pool have in use in one set, and who waits there.
#[derive(Clone, Copy)]
pub(crate) struct SetUsage {
    pub(crate) totals: Totals,
    /// A bit is 1 if the hand of that number waits.
    pub(crate) waiting: u64,
}

/// The same of both sets.
#[derive(Clone, Copy)]
pub(crate) struct Usage {
    pub(crate) reserved: SetUsage,
    pub(crate) ordinary: SetUsage,
}

/// Returns what all callers of a set, which have lent their records, have in use, and who of them waits.
fn usage_of_set<R>(mut all: Gathering<R>, map: &Map<R>) -> (Loans<R>, SetUsage)
    requires map { IsGatheringOf map.now all }
    requires first { BeginsWith map.now.shape (gathered all) }
    requires every { HasAll (numbers (gathered all)) map.now.shape.callers }
    ensures map { are_loans_of map.now result.0 }
    ensures lent { lent result.0 ≡ gathered all }
    ensures usage { IsSetUsage map.now.shape (gathered all) result.1 }
{
    let waiting = all.waiting(map);
    let (loans, totals) = all.settle(map);
    (loans, SetUsage { totals, waiting })
}

impl<R> Together<R> {
    /// Returns what all hands of the pool, which have lent their records, have in use, and who waits.
    fn usage(self, pool: &Pool<R>) -> (Lent<R>, Usage)
        requires pool { IsTogetherOf pool.now self }
        requires first { InBoth (λ kind. BeginsWith (shape_of pool.now kind) (gathered_of self kind)) }
        requires every { InBoth (λ kind. HasAll (numbers (gathered_of self kind)) (hands_of pool.now)) }
        ensures pool { AreLoansOf pool.now result.0 }
        ensures lent { InBoth (λ kind. lent_of result.0 kind ≡ gathered_of self kind) }
        ensures usage { IsUsage pool.now (gathered_of self) result.1 }
    {
        let Together { reserved, ordinary } = self;
        let (first, reserved) = usage_of_set(reserved, &pool.reserved);
        let (rest, ordinary) = usage_of_set(ordinary, &pool.ordinary);
        let lent = Lent {
            reserved: first,
            ordinary: rest,
        };
        (lent, Usage { reserved, ordinary })
    }
}

/// Has these hands lend their records to those gathered. Once all have lent them, one history of each set accounts for all
/// hands; then each hand gets its records back.
fn usage_of_rest<R>(
    pool: &Pool<R>,
    mut all: Together<R>,
    hands: &mut Vec<Hand<R>>,
) -> (Lent<R>, Usage)
    requires own { All (IsHandOf pool.now) hands.old.items }
    requires pool { IsTogetherOf pool.now all }
    requires first { InBoth (λ kind. BeginsWith (shape_of pool.now kind) (gathered_of all kind)) }
    requires every { InBoth (λ kind. HasAll (numbers (records_of hands.old.items kind ++ gathered_of all kind)) (hands_of pool.now)) }
    ensures pool { AreLoansOf pool.now result.0 }
    ensures lent { InBoth (λ kind. lent_of result.0 kind ≡ gathered_of all kind) }
    ensures own { All (IsHandOf pool.now) hands.new.items }
    ensures unchanged { AreUnchanged hands.old.items hands.new.items }
    ensures room { (vec_len hands.new ≡ vec_len hands.old) × (vec_capacity hands.new ≡ vec_capacity hands.old) }
    ensures usage { IsUsage pool.now (λ kind. records_of hands.old.items kind ++ gathered_of all kind) result.1 }
{
    let Some(last) = hands.pop() else {
        return all.usage(pool);
    };
    let lender = all.lend(pool, last);
    let (mut loans, usage) = usage_of_rest(pool, all, hands);
    let last = loans.give_back(pool, lender);
    hands.push_reserved(last);
    (loans, usage)
}

impl<R> Pool<R> {
    /// Brings all hands together for a moment, and returns what they have in use and who waits. The hands are unchanged.
    pub(crate) fn usage(&self, hands: &mut Vec<Hand<R>>) -> Usage
        requires own { All (IsHandOf self.now) hands.old.items }
        requires every { HasAll (numbers_of hands.old.items) (hands_of self.now) }
        ensures own { All (IsHandOf self.now) hands.new.items }
        ensures unchanged { AreUnchanged hands.old.items hands.new.items }
        ensures usage { IsUsage self.now (records_of hands.old.items) result }
    {
        let Some(last) = hands.pop() else {
            unreachable!()
        };
        let (all, lender) = self.start_lending(last);
        let (mut loans, usage) = usage_of_rest(self, all, hands);
        let last = loans.give_back(self, lender);
        hands.push_reserved(last);
        usage
    }
}
