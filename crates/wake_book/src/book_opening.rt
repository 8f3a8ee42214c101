//! Opens a book with its tellers.
ghost use Rattle.std.specs.Prelude.{◌≡◌, ◌^◌, ◌<◌, ◌≤◌, [], ◌∷◌, All, IfOk};
ghost use Rattle.refusals.specs.Refusals.{RefusesOrRunsOut};
ghost use Rattle.step_ledger.specs.Records.{fresh_record};
ghost use Rattle.wake_book.specs.Book.{IsTellerOf, record_of, tellers_of, IsOpenBook, CountsBook};
ghost use Rattle.wake_book.specs.Rest.{HasRestFrom};

use crate::book::{BOOK_WORDS, Book, Limits, Teller};
use crate::fault::BookFault;
use crate::steps::BookStep;
use atomic_table::{Seat, Table};
use std::alloc::{AllocError, Global};
use step_ledger::{HandOut, MemberSource, Records, hand_out};

/// The largest wakeup batch, in completions.
const MAX_WAKE_BATCH: u32 = 8;

/// The most tellers that a book can have.
const MAX_TELLERS: u32 = 64;

/// The highest cap: the most completions that one teller may count, 2^56.
pub const MAX_CAP: u64 = 1 << 56;

impl Book {
    /// Opens a book with `tellers` tellers, 1 to 64, in the order of their numbers. Each of them may count up to `cap`
    /// completions, at most 2^56, and a charge takes `batch` of them, 1 to 8. `Count` means that the batch or the
    /// number of tellers is out of range, `CapTooLarge` a cap above 2^56; `Memory` comes last.
    pub fn open(
        alloc: Global,
        batch: u32,
        tellers: u32,
        cap: u64,
    ) -> Result<(Book, Vec<Teller>), BookFault>
        ensures ok { IfOk result (λ opened. IsOpenBook batch tellers cap opened.0 opened.1.items) }

        ensures refusals { RefusesOrRunsOut ((CountsBook batch tellers, BookFault.Count)
            ∷ (cap ≤ 2 ^ 56, BookFault.CapTooLarge) ∷ []) BookFault.Memory result }
    {
        if batch == 0 || batch > MAX_WAKE_BATCH || tellers == 0 || tellers > MAX_TELLERS {
            return Err(BookFault::Count);
        }
        if cap > MAX_CAP {
            return Err(BookFault::CapTooLarge);
        }
        let Ok(opened) = Book::lay_out(alloc, Limits { tellers, cap }, batch) else {
            return Err(BookFault::Memory);
        };
        Ok(opened)
    }

    fn lay_out(alloc: Global, limits: Limits, batch: u32) -> Result<(Book, Vec<Teller>), AllocError>
        requires { (1 ≤ batch) × (batch ≤ 8) × (1 ≤ limits.tellers) × (limits.tellers ≤ 64) × (limits.cap ≤ 2 ^ 56) }
        ensures { IfOk result (λ opened. IsOpenBook batch limits.tellers limits.cap opened.0 opened.1.items) }
    {
        let words = [0u64; BOOK_WORDS];
        let (table, rest) = Table::of_words(alloc, &words, &limits)?;
        let book = Book {
            table,
            limits,
            batch,
        };
        let tellers = hand_out(alloc, &book, rest, limits.tellers)?;
        Ok((book, tellers))
    }
}

impl MemberSource for Book {
    type Member = Teller;

    type Rest = Seat<(), Records<BookStep>>;

    ghost count_of = { λ book. tellers_of book };

    ghost has_rest = { λ book number rest. (rest.table_id ≡ book.table.shared.table_id)
        × HasRestFrom number (tellers_of book) rest.me };

    ghost is_new = { λ book number teller. IsTellerOf book teller × (record_of teller ≡ fresh_record number) };

    fn next_member(
        &self,
        _alloc: Global,
        rest: &mut Seat<(), Records<BookStep>>,
        number: u32,
    ) -> Result<Teller, AllocError> {
        let seat = self.table.shared.split_seat::<HandOut>(rest);
        Ok(Teller {
            seat,
            number,
            count: 0,
            charges: 0,
        })
    }
}
