//! Gathers the members of a table one after another.
ghost use Rattle.std.specs.Prelude.{◌≢◌, [], All};

/// A table, or several that share their members, as it takes them in.
pub trait Gather {
    ghost use Rattle.std.specs.Prelude.{List, [], ◌∷◌};

    type Member;

    /// What holds the members taken in so far.
    type Gathering;

    // The member was opened with the table.
    ghost owns: { Self → Self.Member → Type 0 };

    // The table has taken in these members, the last one first.
    ghost gathers: { Self → List Self.Member → Self.Gathering → Type 0 };

    fn take_first(&self, member: Self::Member) -> Self::Gathering
        requires { owns self.now member }
        ensures { gathers self.now (member ∷ []) result };

    fn take_next(&self, gathering: &mut Self::Gathering, member: Self::Member)
        requires own { owns self.now member }
        requires some { (members : List Self.Member) × gathers self.now members gathering.old }
        ensures { (members : List Self.Member) → gathers self.now members gathering.old
            → gathers self.now (member ∷ members) gathering.new };
}

/// Gathers all these members, from the last to the first.
pub fn gather_each<T: Gather>(table: &T, mut members: Vec<T::Member>) -> T::Gathering
    requires own { All (T.owns table.now) members.items }
    requires some { members.items ≢ [] }
    ensures { T.gathers table.now members.items result }
{
    let Some(last) = members.pop() else {
        unreachable!()
    };
    let mut gathering = table.take_first(last);
    while let Some(member) = members.pop() {
        table.take_next(&mut gathering, member);
    }
    members.destroy_empty();
    gathering
}
