//! The kinds of atomic step on the words of a map. Only contracts and proofs speak of them: the code keeps no list.

/// One atomic step on a word or on its cleared set. The first number is the index of the word, the last one is what the
/// step found; a mask has 1 at the places concerned.
pub enum WordStep {
    /// A load of the word.
    Look(u32, u64),
    /// A load of the cleared set.
    LookAside(u32, u64),
    /// The bits of the mask are set in the word.
    Claimed(u32, u64, u64),
    /// The bits of the mask are cleared in the word: tags that the caller gives back at once.
    Give(u32, u64, u64),
    /// The bits of the mask are set in the cleared set.
    Put(u32, u64, u64),
    /// The cleared set is emptied, and its tags are the sweeper's.
    Swap(u32, u64),
    /// The tags of the mask, which the caller swept, stay with it. It is made with a swap, and changes no word.
    Keep(u32, u64),
    /// The bits of the mask are cleared in the word: tags that the caller swept.
    Spill(u32, u64, u64),
}
