//! Sets bits in slices of words and of bytes.
ghost use Rattle.std.specs.Prelude.{◌≡◌, ◌+◌, ◌*◌, ◌^◌, ◌<◌, ◌≤◌, length, nat_eq};
ghost use Rattle.std.specs.Int.{bit_at};
ghost use Rattle.tag_pool.specs.Bits.{Marks};

/// Sets bit `first + k` of the slice for each `k` below `width` whose bit is 1 in the mask. It clears no bit.
pub(crate) fn mark(into: &mut [u64], first: u32, width: u32, mask: u64)
    requires width { width ≤ 64 }
    requires room { first + width ≤ 64 * length into.old }
    requires low { first + width < 2 ^ 32 }
    ensures room { length into.new ≡ length into.old }
    ensures marks { Marks 64 first width (λ k. nat_eq (bit_at mask k) 1) into.old into.new }
{
    for place in 0..width {
        if mask & (1 << place) != 0 {
            let bit = first + place;
            into[(bit / 64) as usize] |= 1 << (bit % 64);
        }
    }
}

/// Like `mark`, but in bytes.
pub(crate) fn mark_bytes(into: &mut [u8], first: u32, width: u32, mask: u64)
    requires width { width ≤ 64 }
    requires room { first + width ≤ 8 * length into.old }
    requires low { first + width < 2 ^ 32 }
    ensures room { length into.new ≡ length into.old }
    ensures marks { Marks 8 first width (λ k. nat_eq (bit_at mask k) 1) into.old into.new }
{
    for place in 0..width {
        if mask & (1 << place) != 0 {
            let bit = first + place;
            into[(bit / 8) as usize] |= 1 << (bit % 8);
        }
    }
}
