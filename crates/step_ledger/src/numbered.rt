//! Which member is missing when the members of a table come together.
ghost use Rattle.std.specs.Prelude.{◌≡◌, ◌↔◌, map, IsOk, IfErr, IfNone, IfSome, MatchOption};
ghost use mathlib.Core.Option.{some};
ghost use lib.ListN.{get_elem?};
ghost use Rattle.step_ledger.specs.Gather.{Has, HasAll, IsLeastMissing, IsCauseOf};

/// Why members cannot come together.
#[derive(Clone, Copy, Debug, PartialEq, Eq)]
pub enum GatherCause {
    /// A member was not passed in. This is the least number that is missing.
    Missing(u32),
}

/// A member of a table, numbered from 0.
pub trait Numbered {
    ghost use Rattle.std.specs.Prelude.{ℕ};

    ghost number_of: { Self → ℕ };

    fn number(&self) -> u32
        ensures { result ≡ number_of self.now };
}

/// Establishes that each number below `count` is that of a member, or returns why not.
pub fn all_there<M: Numbered>(members: &Vec<M>, count: u32) -> Result<(), GatherCause>
    ensures succeeds { IsOk result ↔ HasAll (map M.number_of members.now.items) count }
    ensures missing { IfErr result (IsCauseOf (map M.number_of members.now.items) count) }
{
    match least_missing(members.as_slice(), count) {
        None => Ok(()),
        Some(number) => Err(GatherCause::Missing(number)),
    }
}

/// Returns the least number below `count` that none of these members has.
pub fn least_missing<M: Numbered>(members: &[M], count: u32) -> Option<u32>
    ensures { MatchOption result (HasAll (map M.number_of members.now) count) (IsLeastMissing (map M.number_of members.now) count) }
{
    for number in 0..count {
        let Some(_) = index_of(members, number) else {
            return Some(number);
        };
    }
    None
}

/// Returns the index of a member with this number.
pub fn index_of<M: Numbered>(members: &[M], number: u32) -> Option<usize>
    ensures none { IfNone result (¬ Has (map M.number_of members.now) number) }
    ensures some { IfSome result (λ index. get_elem? (map M.number_of members.now) index ≡ some number) }
{
    for (index, member) in members.iter().enumerate() {
        if member.number() == number {
            return Some(index);
        }
    }
    None
}
