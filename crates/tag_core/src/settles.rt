//! Settling: all callers are passed in, and the map stays.
ghost use Rattle.std.specs.Prelude.{◌≡◌, ◌↔◌, ◌++◌, map, All, IsOk, IfOk, IfErr, vec_len, vec_capacity};
ghost use Rattle.step_ledger.specs.Gather.{IsCauseOf, HasAll};
ghost use Rattle.tag_core.specs.Callers.{IsCallerOf, record_of, AreUnchanged};
ghost use Rattle.tag_core.specs.Gathering.{IsGatheringOf, gathered, numbers, numbers_of};
ghost use Rattle.tag_core.specs.Lending.{lent, AreLoansOf, BeginsWith};
ghost use Rattle.tag_core.specs.Settling.{AreSettled};

use crate::caller::Caller;
use crate::closed::GatherFault;
use crate::loans::Loans;
use crate::map::Map;
use crate::settled::Settled;
use crate::together::Gathering;
use step_ledger::all_there;
use tag_model::Totals;

/// Has these callers lend their records to those gathered. Once all are together, one history shows them; then each
/// record is returned.
fn settle_rest<R>(
    tags: &Map<R>,
    mut all: Gathering<R>,
    callers: &mut Vec<Caller<R>>,
) -> (Loans<R>, Totals)
    requires own { All (IsCallerOf tags.now) callers.old.items }
    requires map { IsGatheringOf tags.now all }
    requires first { BeginsWith tags.now.shape (gathered all) }
    requires every { HasAll (numbers (map record_of callers.old.items ++ gathered all)) tags.now.shape.callers }
    ensures map { AreLoansOf tags.now result.0 }
    ensures lent { lent result.0 ≡ gathered all }
    ensures own { All (IsCallerOf tags.now) callers.new.items }
    ensures unchanged { AreUnchanged callers.old.items callers.new.items }
    ensures room { (vec_len callers.new ≡ vec_len callers.old) × (vec_capacity callers.new ≡ vec_capacity callers.old) }
    ensures settled { AreSettled tags.now.shape (map record_of callers.old.items ++ gathered all) result.1 }
{
    let Some(last) = callers.pop() else {
        return all.settle(tags);
    };
    let lender = all.lend(tags, last);
    let (mut loans, totals) = settle_rest(tags, all, callers);
    let last = loans.give_back(tags, lender);
    callers.push_reserved(last);
    (loans, totals)
}

/// Returns the totals of all callers, which stay unchanged.
fn settle_all<R>(tags: &Map<R>, callers: &mut Vec<Caller<R>>) -> Totals
    requires own { All (IsCallerOf tags.now) callers.old.items }
    requires every { HasAll (numbers_of callers.old.items) tags.now.shape.callers }
    ensures own { All (IsCallerOf tags.now) callers.new.items }
    ensures unchanged { AreUnchanged callers.old.items callers.new.items }
    ensures settled { AreSettled tags.now.shape (map record_of callers.new.items) result }
{
    let Some(last) = callers.pop() else {
        unreachable!()
    };
    let (all, lender) = tags.start_lending(last);
    let (mut loans, totals) = settle_rest(tags, all, callers);
    let last = loans.give_back(tags, lender);
    callers.push_reserved(last);
    totals
}

impl<R: Drop> Map<R> {
    /// Brings all callers of the map together, in any order, so that nobody else acts on it. If one is missing,
    /// `GatherFault` has the map and all callers back, unchanged. Its loads of the spare word, `5 n - 1` for `n`
    /// callers, change no place and are not recorded as steps.
    pub fn settle(self, mut callers: Vec<Caller<R>>) -> Result<Settled<R>, GatherFault<R>>
        requires { All (λ c. IsCallerOf self c) callers.items }
        ensures succeeds { IsOk result ↔ HasAll (numbers_of callers.items) self.shape.callers }
        ensures map { IfOk result (λ s. s.tags ≡ self) }
        ensures callers { IfOk result (λ s. AreUnchanged callers.items s.callers.items) }
        ensures settled { IfOk result (λ s. AreSettled s.tags.shape (map record_of s.callers.items) s.totals) }

        // The caller missing is the one of the least number.
        ensures missing { IfErr result (λ f. IsCauseOf (numbers_of callers.items) self.shape.callers f.cause) }
        ensures err { IfErr result (λ f. (f.map ≡ self) × (f.callers ≡ callers)) }
    {
        if let Err(cause) = all_there(&callers, self.shape.callers) {
            return Err(GatherFault {
                cause,
                map: self,
                callers,
            });
        }
        let totals = settle_all(&self, &mut callers);
        Ok(Settled {
            tags: self,
            callers,
            totals,
        })
    }
}

impl<R> Settled<R> {
    /// Number of tags that the callers hold.
    pub fn held(&self) -> u64
        ensures { result ≡ self.now.totals.held }
    {
        self.totals.held
    }

    /// Number of tags that are posted.
    pub fn posted(&self) -> u64
        ensures { result ≡ self.now.totals.posted }
    {
        self.totals.posted
    }

    /// Returns the map and its callers, in the order in which they were brought together.
    pub fn back(self) -> (Map<R>, Vec<Caller<R>>)
        ensures map { result.0 ≡ self.tags }
        ensures callers { result.1.items ≡ self.callers.items }
        ensures own { All (λ c. IsCallerOf result.0 c) result.1.items }
    {
        (self.tags, self.callers)
    }
}
