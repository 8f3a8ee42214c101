//! The kinds of step on both tables, each with what it found. These types exist only for the proofs.

/// A step of one teller on the charge book.
pub enum BookStep {
    /// A load of the completions: the count found.
    LookCompletions(u64),
    /// A load of the wakeups: the count found.
    LookWakeups(u64),
    /// An addition to the completions: how many, and the count found before.
    Add(u64, u64),
    /// A compare-exchange of the wakeups: the count expected, the new one, and the count found. It wins if it finds
    /// what it expects, as do the exchanges below.
    Advance(u64, u64, u64),
}

/// A step of one waiter on the wait groups.
pub enum GroupStep {
    /// A load of a word: its index in the table, and the value found.
    Look(u64, u64),
    /// The active count goes up by 1: the count found before.
    Raise(u64),
    /// The active count goes down by 1: the count found before.
    Lower(u64),
    /// The waiter enters a group and waits: the group, and the word found before.
    Enter(u64, u64),
    /// An exchange that turns waiting into granted: the group, the word expected, how many, and the word found.
    Grant(u64, u64, u64, u64),
    /// An exchange that uses a grant: the group, the word expected, and the word found.
    Use(u64, u64, u64),
    /// An exchange by which a waiter without a grant leaves: the group, the word expected, and the word found.
    Withdraw(u64, u64, u64),
    /// A store of the wake index: the new value.
    Store(u64),
}
