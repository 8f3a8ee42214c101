//! The charge book: completions are counted, and each batch of them is charged once.
ghost use Rattle.std.specs.Prelude.{◌≡◌, ◌-◌, ◌^◌, ◌≤◌, [], min};
ghost use Rattle.step_ledger.specs.Records.{steps_of, sum_over};
ghost use Rattle.step_ledger.specs.Views.{own_view};
ghost use Rattle.step_ledger.specs.History.{total};
ghost use Rattle.wake_book.specs.Charges.{all_fresh, added, book_width, charged};

use crate::spacing::STRIDE;
use crate::steps::BookStep;
use atomic_table::{Seat, Table, TableRule};
use std::alloc::Global;
use step_ledger::{Numbered, Records};

/// Index of the word that counts completions. The spare word is at 0.
pub(crate) const COMPLETIONS: usize = STRIDE;

/// Index of the word that counts the completions charged.
pub(crate) const WAKEUPS: usize = 2 * STRIDE;

/// Length of the table, in words: three spaced words, the last of which also has 64 bytes of its own.
pub(crate) const BOOK_WORDS: usize = 3 * STRIDE;

/// The parameters of the book's table, fixed when it is opened.
#[derive(Clone, Copy)]
pub struct Limits {
    /// Number of tellers, 1 to 64.
    pub tellers: u32,
    /// Completions that one teller may count in all, at most 2^56.
    pub cap: u64,
}

/// The rule of the book's table: its words are what some lawful history of the tellers' steps leaves.
#[derive(Drop)]
pub struct Charges;

impl TableRule<(), Records<BookStep>, Limits> for Charges {
    ghost use Rattle.wake_book.specs.Charges.{BookRule};

    ghost holds = { λ k. BookRule k };

    ghost first = { λ k. all_fresh k };
}

/// The counts of completions and wakeups, shared by up to 64 tellers without a lock.
#[derive(Drop)]
pub struct Book {
    pub(crate) table: Table<(), Records<BookStep>, Limits, Charges, Global>,
    pub(crate) limits: Limits,
    /// Completions per charge, 1 to 8.
    pub(crate) batch: u32,
    ghost told: { table.shared.key ≡ limits },
    ghost wide: { (table.shared.table_id.words ≡ book_width) × (table.shared.table_id.slots ≡ 0) },
    ghost small: { (limits.tellers ≤ 64) × (limits.cap ≤ 2 ^ 56) × (1 ≤ batch) × (batch ≤ 8) × (1 ≤ limits.tellers) },
}

impl Book {
    ghost use Rattle.wake_book.specs.Book.{batch_of, tellers_of};

    /// Returns the number of completions that one charge takes, 1 to 8.
    pub fn batch(&self) -> u32
        ensures value { result ≡ batch_of self.now }
        ensures within { (1 ≤ result) × (result ≤ 8) }
    {
        self.batch
    }

    /// Returns the number of tellers, 1 to 64.
    pub fn tellers(&self) -> u32
        ensures value { result ≡ tellers_of self.now }
        ensures within { (1 ≤ result) × (result ≤ 64) }
    {
        self.limits.tellers
    }
}

/// A handle that counts completions. A contract sees its number and the list of its own steps.
#[derive(Drop)]
pub struct Teller {
    pub(crate) seat: Seat<(), Records<BookStep>>,
    /// Its number, from 0.
    pub(crate) number: u32,
    /// Completions that it counted, at most the cap.
    pub(crate) count: u64,
    /// Charges that it won, at most `count`.
    pub(crate) charges: u64,
    ghost knows: { seat.me ≡ (own_view (record { number = number; steps = steps_of seat.me.0 }), []) },
    ghost counts: { (count ≡ total added (steps_of seat.me.0)) × (count ≤ 2 ^ 56) },
    ghost wins: { (charges ≡ total charged (steps_of seat.me.0)) × (charges ≤ count) },
}

impl Numbered for Teller {
    ghost number_of = { λ teller. teller.number };

    fn number(&self) -> u32 {
        self.number
    }
}

/// The tellers gathered so far. A contract sees the list of their records, the last one added first.
#[derive(Drop)]
pub struct TellerGathering {
    /// The seat that holds the records of these tellers.
    pub(crate) seat: Seat<(), Records<BookStep>>,
    /// Charges that these tellers won, as a saturating sum. 64 tellers of at most 2^56 charges each never saturate it.
    pub(crate) charges: u64,
    ghost empty: { seat.me.1 ≡ [] },
    ghost sum: { charges ≡ min (sum_over (total charged) seat.me.0.records.value) (2 ^ 64 - 1) },
}

/// The totals of a book, known once all its tellers are gathered.
#[derive(Clone, Copy, Debug, PartialEq, Eq)]
pub struct BookTotals {
    /// Completions counted.
    pub counted: u64,
    /// Completions charged, at most those counted.
    pub charged: u64,
    /// Charges won, each of one batch of completions.
    pub charges: u64,
}
