//! The charge book as one thread sees it.
ghost use Rattle.std.specs.Prelude.{◌≡◌, ◌++◌, ◌∷◌, [], All, IfSome, MatchOption};
ghost use Rattle.wake_book.specs.Book.{IsTellerOf};

use std::test::Fail;
use step_ledger::GatherCause::Missing;
use step_ledger::Numbered;
use wake_book::BookFault::{CapTooLarge, Count};
use wake_book::Charge::{self, Below, Full, Won};
use wake_book::{Book, BookTotals, Teller};

fn next_teller(book: &Book, tellers: &mut Vec<Teller>) -> Option<Teller>
    requires { All (IsTellerOf book.now) tellers.old.items }
    ensures { All (IsTellerOf book.now) tellers.new.items × IfSome result (IsTellerOf book.now) }
{
    tellers.pop()
}

fn put_back(book: &Book, tellers: &mut Vec<Teller>, teller: Teller) -> Result<(), Fail>
    requires { All (IsTellerOf book.now) tellers.old.items × IsTellerOf book.now teller }
    ensures { All (IsTellerOf book.now) tellers.new.items }
{
    tellers.push(teller)?;
    Ok(())
}

/// Completions counted and charged, in how many charges.
fn totals(counted: u64, charged: u64, charges: u64) -> BookTotals {
    BookTotals {
        counted,
        charged,
        charges,
    }
}

fn close(book: Book, tellers: Vec<Teller>) -> Result<BookTotals, Fail>
    requires { All (IsTellerOf book) tellers.items }
{
    match Book::gather(book, tellers) {
        Ok(totals) => Ok(totals),
        Err(_) => Err(Fail::new("a teller is missing")),
    }
}

/// The first teller counts completions, if there is a teller and the count is 1 to 64.
fn count(book: &Book, tellers: &mut Vec<Teller>, count: u32) -> Option<Charge>
    requires { All (IsTellerOf book.now) tellers.old.items }
    ensures { All (IsTellerOf book.now) tellers.new.items }
{
    if count == 0 || count > 64 {
        return None;
    }
    Some(book.count(tellers.get_mut(0)?, count))
}

/// The first teller counts completions, up to the first answer that differs from the one expected. Returns the index of
/// that count and its answer.
fn wrong(
    book: &Book,
    tellers: &mut Vec<Teller>,
    said: &[(u32, Charge)],
) -> Option<(usize, Option<Charge>)>
    requires { All (IsTellerOf book.now) tellers.old.items }
    ensures { All (IsTellerOf book.now) tellers.new.items }
{
    for (index, (completions, charge)) in said.iter().enumerate() {
        let found = count(book, tellers, *completions);
        if found != Some(*charge) {
            return Some((index, found));
        }
    }
    None
}

/// Completions counted and charged, as the first teller finds them.
fn counts(book: &Book, tellers: &mut Vec<Teller>) -> Option<(u64, u64)>
    requires { All (IsTellerOf book.now) tellers.old.items }
    ensures { All (IsTellerOf book.now) tellers.new.items }
{
    Some(book.counts(tellers.get_mut(0)?))
}

#[test]
fn a_full_batch_is_charged_once(rt: HostRuntime) -> Result<(), Fail> {
    let (book, mut tellers) = Book::open(rt.alloc(), 2, 1, 3)?;
    let wrong = wrong(&book, &mut tellers, &[(2, Won(0)), (1, Below), (1, Full)]);
    let counts = counts(&book, &mut tellers);
    assert_eq!(rt;
        (wrong, counts, close(book, tellers)?),
        (None, Some((3, 2)), totals(3, 2, 1))
    );
    Ok(())
}

#[test]
fn new_batches_go_on_from_the_old_count(rt: HostRuntime) -> Result<(), Fail> {
    let (mut book, mut tellers) = Book::open(rt.alloc(), 2, 1, 10)?;
    let first = wrong(&book, &mut tellers, &[(2, Won(0))]);
    book.rebatch(1);
    let second = wrong(&book, &mut tellers, &[(1, Won(2))]);
    book.rebatch(3);
    let third = wrong(&book, &mut tellers, &[(2, Below), (1, Won(3))]);
    assert_eq!(rt;
        ([first, second, third], close(book, tellers)?),
        ([None; 3], totals(6, 6, 3))
    );
    Ok(())
}

#[test]
fn gather_without_a_teller_hands_all_back(rt: HostRuntime) -> Result<(), Fail> {
    let (book, mut tellers) = Book::open(rt.alloc(), 1, 3, 10)?;
    let (Some(second), Some(first), Some(zeroth)) = (
        next_teller(&book, &mut tellers),
        next_teller(&book, &mut tellers),
        next_teller(&book, &mut tellers),
    ) else {
        return Err(Fail::new("fewer than three tellers"));
    };
    let Err(fault) = Book::gather(book, tellers) else {
        return Err(Fail::new("gathered without a teller"));
    };
    let without_all = fault.cause;
    let book = fault.book;
    let mut tellers = fault.tellers;
    put_back(&book, &mut tellers, second)?;
    put_back(&book, &mut tellers, zeroth)?;
    let Err(fault) = Book::gather(book, tellers) else {
        return Err(Fail::new("gathered without the first"));
    };
    let without_first = fault.cause;
    let book = fault.book;
    let mut tellers = fault.tellers;
    put_back(&book, &mut tellers, first)?;
    assert_eq!(rt;
        (without_all, without_first, close(book, tellers)?),
        (Missing(0), Missing(1), totals(0, 0, 0))
    );
    Ok(())
}

#[test]
fn tellers_come_together_one_after_another(rt: HostRuntime) -> Result<(), Fail> {
    let (book, mut tellers) = Book::open(rt.alloc(), 2, 2, 3)?;
    let (Some(mut second), Some(first)) = (
        next_teller(&book, &mut tellers),
        next_teller(&book, &mut tellers),
    ) else {
        return Err(Fail::new("fewer than two tellers"));
    };
    let opened = (book.batch(), book.tellers());
    let charge = book.count(&mut second, 3);
    if book.tellers() != 2 || first.number() != 0 || second.number() != 1 {
        return Err(Fail::new("the tellers are numbered otherwise"));
    }
    let mut all = book.start_gathering(second);
    all.add(&book, first);
    assert_eq!(rt;
        (opened, charge, book.finish(all)),
        ((2, 2), Won(0), totals(3, 2, 1))
    );
    Ok(())
}

#[test]
fn a_book_is_refused_by_its_first_fault(rt: HostRuntime) {
    for (batch, tellers, cap, fault) in [
        (9, 1, 10, Count),
        (0, 1, 10, Count),
        (2, 0, 10, Count),
        (2, 65, u64::MAX, Count),
        (2, 1, 72_057_594_037_927_937, CapTooLarge),
    ] {
        let refused = Book::open(rt.alloc(), batch, tellers, cap).err();
        assert_eq!(rt; (batch, tellers, refused), (batch, tellers, Some(fault)));
    }
}
