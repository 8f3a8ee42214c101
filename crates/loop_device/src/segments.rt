//! The stamps of a row of sectors, as a segment tree that is split where stamps differ.
ghost use Rattle.std.specs.Prelude.{◌≡◌, ℕ, true, ◌≤◌, ◌<◌, OnOk};
ghost use Rattle.loop_device.specs.Segments.{stamp_at, greatest_of, is_sound, is_split_at, IsGreatestWithin, IsStampedWithin, IsRefined};

use std::alloc::{AllocError, Global};

/// The stamps of sectors 0, 1, 2, .. of a row. The caller keeps the row's width, which is halved at each level.
#[derive(Drop)]
pub(crate) enum Segments {
    /// All sectors have this stamp.
    Leaf(u64),
    /// The greatest stamp, and the stamps of the lower and the upper half.
    Node(u64, Box<Segments>, Box<Segments>),
}

impl Segments {
    /// The greatest stamp of the whole row.
    fn greatest_of(&self) -> u64
        ensures { result ≡ greatest_of self.now }
    {
        match self {
            Segments::Leaf(stamp) => *stamp,
            Segments::Node(greatest, _, _) => *greatest,
        }
    }

    /// The greatest stamp of the sectors from `first` up to but not including `end`, 0 if there are none.
    pub(crate) fn greatest(&self, width: u128, first: u128, end: u128) -> u64
        requires sound { is_sound width self.now ≡ true }
        requires within { end ≤ width }
        ensures { IsGreatestWithin (stamp_at width self.now) first end result }
    {
        if end <= first {
            return 0;
        }
        match self {
            Segments::Leaf(stamp) => *stamp,
            Segments::Node(greatest, low, high) => {
                if first == 0 && end == width {
                    return *greatest;
                }
                let half = width / 2;
                let below = low.greatest(half, first.min(half), end.min(half));
                let above = high.greatest(
                    width - half,
                    first.saturating_sub(half),
                    end.saturating_sub(half),
                );
                below.max(above)
            }
        }
    }

    /// Splits the row until no part with a single stamp extends across `at`. No stamp changes.
    pub(crate) fn split_at(
        &mut self,
        alloc: Global,
        width: u128,
        at: u128,
    ) -> Result<(), AllocError>
        requires sound { is_sound width self.old ≡ true }
        requires within { at ≤ width }
        ensures same { IsRefined width self.old self.new }
        ensures ok { OnOk result (is_split_at width self.new at ≡ true) }
    {
        if at == 0 || at == width {
            return Ok(());
        }
        let half = width / 2;
        match self {
            Segments::Leaf(stamp) => {
                let stamp = *stamp;
                let mut low = Box::new(alloc, Segments::Leaf(stamp))?;
                let mut high = Box::new(alloc, Segments::Leaf(stamp))?;
                if at < half {
                    low.split_at(alloc, half, at)?;
                } else {
                    high.split_at(alloc, width - half, at - half)?;
                }
                *self = Segments::Node(stamp, low, high);
                Ok(())
            }
            Segments::Node(_, low, high) => {
                if at < half {
                    low.split_at(alloc, half, at)
                } else {
                    high.split_at(alloc, width - half, at - half)
                }
            }
        }
    }

    /// Stamps the sectors from `first` up to but not including `end`.
    pub(crate) fn assign(&mut self, width: u128, first: u128, end: u128, stamp: u64)
        requires sound { is_sound width self.old ≡ true }
        requires within { end ≤ width }
        requires first { is_split_at width self.old first ≡ true }
        requires end { is_split_at width self.old end ≡ true }
        ensures sound { is_sound width self.new ≡ true }
        ensures stamps { IsStampedWithin (stamp_at width self.old) (stamp_at width self.new) width first end stamp }
    {
        if end <= first {
            return;
        }
        if first == 0 && end == width {
            *self = Segments::Leaf(stamp);
            return;
        }
        let half = width / 2;
        match self {
            Segments::Node(greatest, low, high) => {
                low.assign(half, first.min(half), end.min(half), stamp);
                high.assign(
                    width - half,
                    first.saturating_sub(half),
                    end.saturating_sub(half),
                    stamp,
                );
                *greatest = low.greatest_of().max(high.greatest_of());
            }
            Segments::Leaf(_) => unreachable!(),
        }
    }
}
