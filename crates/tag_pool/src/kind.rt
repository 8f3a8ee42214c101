//! The two sets, and which of them a tag is in.
ghost use Rattle.std.specs.Prelude.{◌≡◌, IfOk, ⊤};
ghost use Rattle.tag_pool.specs.Sets.{kind_of};
ghost use Rattle.tag_pool.specs.Hands.{reserved_of, IsHandOf};
ghost use Rattle.refusals.specs.Refusals.{RefusesBy};
ghost use Rattle.tag_pool.specs.Refusals.{number_checks, tag_checks};

use crate::fault::TagFault;
use crate::hand::Hand;
use crate::pool::Pool;

/// The two kinds of tags: ordinary ones, and those reserved for requests that must not wait behind others.
#[derive(Clone, Copy, Debug, PartialEq, Eq)]
pub enum Kind {
    /// After the reserved tags in the range. Only these have shallow gets and batches.
    Ordinary,
    /// The first tags of the range. Who waits for one waits beside those that wait for ordinary tags, and is told of reserved
    /// tags alone.
    Reserved,
}

impl<R: Copy> Pool<R> {
    /// Returns the kind that a tag of this number has. This makes no step.
    #[inline]
    pub fn kind(&self, tag: u32) -> Kind
        ensures { result ≡ kind_of (reserved_of self.now) tag }
    {
        if tag < self.reserved_count {
            Kind::Reserved
        } else {
            Kind::Ordinary
        }
    }

    /// Returns the kind of a tag. `NoSuchTag` means that the number is not below the total. This makes no step and needs no
    /// hand.
    #[inline]
    pub fn find(&self, tag: u32) -> Result<Kind, TagFault>
        ensures refusals { RefusesBy (number_checks self.now tag) ⊤ result }
        ensures kind { IfOk result (λ kind. kind ≡ kind_of (reserved_of self.now) tag) }
    {
        if tag >= self.total {
            return Err(TagFault::NoSuchTag);
        }
        Ok(self.kind(tag))
    }

    /// Returns the kind of a held tag. `NoSuchTag` means that the number is not below the total, `NotHeld` that the hand does
    /// not hold the tag. This makes no step.
    #[inline]
    pub fn find_held(&self, hand: &Hand<R>, tag: u32) -> Result<Kind, TagFault>
        requires hand { IsHandOf self.now hand.now }
        ensures refusals { RefusesBy (tag_checks self.now hand.now tag) ⊤ result }
        ensures kind { IfOk result (λ kind. kind ≡ kind_of (reserved_of self.now) tag) }
    {
        let kind = self.find(tag)?;
        if !hand.holds_past(self.reserved_count, tag) {
            return Err(TagFault::NotHeld);
        }
        Ok(kind)
    }
}
