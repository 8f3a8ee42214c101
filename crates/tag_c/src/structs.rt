//! The options and the sums of a pool, laid out as in tags.h.

/// The flag for gets that each begin after the last tag won.
pub const ROUND_ROBIN: u32 = 1;

/// The number for hands that keep tags only while they hold another one. 0 stands for hands that keep them always.
pub const WHILE_HOLDING: u32 = 1;

/// The shift for words by the number of hands.
pub const BY_HANDS: i32 = -1;

/// The most tags that a hand may keep.
pub const MAX_CACHE: u32 = u64::BITS;

/// The options of a new pool.
#[repr(C)]
#[derive(Clone, Copy)]
pub struct RequestedOptions {
    /// Number of tags, reserved and ordinary, at most `MAX_DEPTH`.
    pub total: u32,
    /// Number of reserved tags, at most `total`. They come first, from tag 0.
    pub reserved: u32,
    /// Binary logarithm of the bits per word, at most `MAX_SHIFT`. A negative shift chooses the default for the depth:
    /// `BY_HANDS` that for the number of hands, and any other the kernel's.
    pub shift: i32,
    /// The least depth that a shallow get may ask for. 0 allows any from 1.
    pub min_shallow: u32,
    /// Number of hands, 1 to `MAX_CALLERS`.
    pub hands: u32,
    /// 0, or `ROUND_ROBIN`.
    pub flags: u32,
}

/// The sums over all hands of a closed pool.
#[repr(C)]
#[derive(Clone, Copy)]
pub struct Sums {
    /// Tags won.
    pub got: u64,
    /// Tags given back.
    pub back: u64,
    /// Tags still held.
    pub held: u64,
    /// Tags still posted.
    pub posted: u64,
}

impl Sums {
    /// All sums 0.
    pub const NONE: Sums = Sums {
        got: 0,
        back: 0,
        held: 0,
        posted: 0,
    };
}
