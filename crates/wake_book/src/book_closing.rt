//! Gathers all tellers and closes the book.
ghost use Rattle.std.specs.Prelude.{◌≡◌, ◌↔◌, [], ◌∷◌, All, IfOk, IfErr, IsOk};
ghost use Rattle.std.specs.Slots.{slots_len};
ghost use Rattle.step_ledger.specs.Records.{numbers};
ghost use Rattle.step_ledger.specs.Gather.{HasAll, IsCauseOf};
ghost use Rattle.wake_book.specs.Book.{IsTellerOf, record_of, records_of, numbers_of, tellers_of, limits_of};
ghost use Rattle.wake_book.specs.Book.{IsGatheringOf, gathered};
ghost use Rattle.wake_book.specs.Booked.{IsBooked};

use crate::book::{Book, BookTotals, COMPLETIONS, Teller, TellerGathering, WAKEUPS};
use atomic_table::Closed;
use std::alloc::Global;
use step_ledger::{Collect, Gather, GatherCause, all_there, gather_each};

/// The reason why `gather` failed, with the book and the tellers that were passed in.
#[derive(Drop)]
pub struct BookGatherFault {
    pub cause: GatherCause,
    pub book: Book,
    /// In the order in which they were passed in.
    pub tellers: Vec<Teller>,
}

impl Book {
    /// Closes the book and returns its totals, if all its tellers are passed in, in any order. Otherwise it names the
    /// least missing number and hands everything back. For each teller but the first, one load is in no teller's list.
    pub fn gather(book: Book, tellers: Vec<Teller>) -> Result<BookTotals, BookGatherFault>
        requires { All (IsTellerOf book) tellers.items }
        ensures ok { IfOk result (λ totals. IsBooked (limits_of book) (records_of tellers.items) totals) }
        ensures succeeds { IsOk result ↔ HasAll (numbers_of tellers.items) (tellers_of book) }
        ensures missing { IfErr result (λ fault. IsCauseOf (numbers_of tellers.items) (tellers_of book) fault.cause) }
        ensures err { IfErr result (λ fault. (fault.book ≡ book) × (fault.tellers ≡ tellers)) }
    {
        if let Err(cause) = all_there(&tellers, book.limits.tellers) {
            return Err(BookGatherFault {
                cause,
                book,
                tellers,
            });
        }
        let all = gather_each(&book, tellers);
        Ok(book.finish(all))
    }

    /// Starts a gathering with its first teller.
    pub fn start_gathering(&self, teller: Teller) -> TellerGathering
        requires { IsTellerOf self.now teller }
        ensures book { IsGatheringOf self.now result }
        ensures gathered { gathered result ≡ record_of teller ∷ [] }
    {
        let Teller {
            seat,
            number: _,
            count: _,
            charges,
        } = teller;
        TellerGathering { seat, charges }
    }

    /// Closes the book, once all its tellers are gathered, and returns its totals.
    pub fn finish(self, gathering: TellerGathering) -> BookTotals
        requires book { IsGatheringOf self gathering }
        requires all { HasAll (numbers (gathered gathering)) (tellers_of self) }
        ensures { IsBooked (limits_of self) (gathered gathering) result }
    {
        let Book {
            table,
            limits: _,
            batch: _,
        } = self;
        let TellerGathering { seat, charges } = gathering;
        let closed = table.close_with(seat);
        let counted = closed.word(COMPLETIONS);
        let charged = closed.word(WAKEUPS);
        discard(closed);
        BookTotals {
            counted,
            charged,
            charges,
        }
    }
}

impl Gather for Book {
    ghost use Rattle.wake_book.specs.Book.{AreGathered};

    type Member = Teller;

    type Gathering = TellerGathering;

    ghost owns = { λ book teller. IsTellerOf book teller };

    ghost gathers = { λ book tellers gathering. AreGathered book tellers gathering };

    fn take_first(&self, teller: Teller) -> TellerGathering {
        self.start_gathering(teller)
    }

    fn take_next(&self, gathering: &mut TellerGathering, teller: Teller) {
        gathering.add(self, teller);
    }
}

impl TellerGathering {
    /// Adds a teller of the book to the gathering. The load that this takes is in no teller's list.
    pub fn add(&mut self, book: &Book, teller: Teller)
        requires own { IsTellerOf book.now teller }
        requires book { IsGatheringOf book.now self.old }
        ensures book { IsGatheringOf book.now self.new }
        ensures gathered { gathered self.new ≡ record_of teller ∷ gathered self.old }
    {
        let Teller {
            seat,
            number: _,
            count: _,
            charges,
        } = teller;
        book.table.shared.join_seat::<Collect>(&mut self.seat, seat);
        self.charges = self.charges.saturating_add(charges);
    }
}

/// Frees the memory of a closed table without slots.
pub(crate) fn discard(closed: Closed<(), Global>)
    requires { slots_len closed.slots ≡ 0 }
{
    closed.free();
}
