//! Hands out the members of a table one after another.
ghost use Rattle.std.specs.Prelude.{◌≡◌, IfOk};
ghost use Rattle.step_ledger.specs.Gather.{AreNumbered};

use std::alloc::{AllocError, Global};

/// A table that makes its members in the order of their numbers, from a seat with the records of all.
pub trait MemberSource {
    ghost use Rattle.std.specs.Prelude.{ℕ, ◌+◌, ◌<◌};

    type Member: Drop;

    type Rest: Drop;

    ghost count_of: { Self → ℕ };

    // The seat has the records of the members from this number on.
    ghost has_rest: { Self → ℕ → Self.Rest → Type 0 };

    // The member is new, and has this number.
    ghost is_new: { Self → ℕ → Self.Member → Type 0 };

    fn next_member(
        &self,
        alloc: Global,
        rest: &mut Self::Rest,
        number: u32,
    ) -> Result<Self::Member, AllocError>
        requires comes { number < count_of self.now }
        requires rest { has_rest self.now number rest.old }
        ensures member { IfOk result (λ member. is_new self.now number member) }
        ensures rest { IfOk result (λ member. has_rest self.now (number + 1) rest.new) };
}

/// Returns all members, in the order of their numbers.
pub fn hand_out<T: MemberSource>(
    alloc: Global,
    table: &T,
    mut rest: T::Rest,
    count: u32,
) -> Result<Vec<T::Member>, AllocError>
    requires count { count ≡ T.count_of table.now }
    requires rest { T.has_rest table.now 0 rest }
    ensures { IfOk result (λ members. AreNumbered (T.is_new table.now) count members.items) }
{
    let mut members = Vec::new(alloc);
    for number in 0..count {
        let member = table.next_member(alloc, &mut rest, number)?;
        members.push(member)?;
    }
    Ok(members)
}
