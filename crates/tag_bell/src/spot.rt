//! Where a tag can be free. Only contracts and proofs speak of it.

/// A bit at which a tag can be free: the index of a word, and the place in it. A tag has two of them.
pub enum Spot {
    /// The bit in the word, at which a tag is free if it is 0.
    InWord(u32, u32),
    /// The bit in the word's cleared set, at which a tag is free for whoever sweeps if it is 1.
    InAside(u32, u32),
}
