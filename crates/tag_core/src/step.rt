//! The kinds of atomic step on a map. Only contracts and proofs speak of them: the code keeps no list.
use crate::bell_step::BellStep;
use crate::word_step::WordStep;

/// One atomic step of a caller, with what it found.
pub enum Step<R> {
    /// A step on a word or on its cleared set.
    Word(WordStep),
    /// A held tag is posted: its number, its note, and the value of its slot.
    Post(u32, u64, R),
    /// A posted tag is taken: its number, the state that was found (1 is posted), and its slot's value where it was won.
    Take(u32, u64, Option<R>),
    /// A load of a tag's state: its number, and what was found, 0 if the tag is not posted, else one more than its note.
    ReadNote(u32, u64),
    /// A step by which callers wait.
    Bell(BellStep),
}
