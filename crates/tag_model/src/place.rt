//! Where a tag can be.
ghost use Rattle.std.specs.Prelude.{◌≡◌};
ghost use Rattle.tag_model.specs.Event.{swept_by, spilled_by};
ghost use Rattle.tag_model.specs.Totals.{is_held, is_posted};

/// The one place in which a tag is. Callers go by their numbers, from 0.
#[derive(Clone, Copy, Debug, PartialEq, Eq)]
pub enum Place {
    /// Nobody's: the next to claim it wins it.
    Free,
    /// Won by this caller, and not given back.
    Held(u32),
    /// Handed on for any caller to take.
    Posted,
    /// Given back into its word's cleared set, and not yet taken out of the word.
    Aside,
    /// Taken out of the cleared set by this caller, who is about to free it.
    Sweep(u32),
}

impl Place {
    /// Whether somebody holds the tag.
    pub(crate) fn is_held(self) -> bool
        ensures { result ≡ is_held self }
    {
        matches!(self, Place::Held(_))
    }

    /// Whether the tag is posted.
    pub(crate) fn is_posted(self) -> bool
        ensures { result ≡ is_posted self }
    {
        matches!(self, Place::Posted)
    }

    /// The place after the caller took what is aside.
    pub(crate) fn swept_by(self, caller: u32) -> Place
        ensures { result ≡ swept_by caller self }
    {
        match self {
            Place::Aside => Place::Sweep(caller),
            other => other,
        }
    }

    /// The place after the caller freed what it swept.
    pub(crate) fn spilled_by(self, caller: u32) -> Place
        ensures { result ≡ spilled_by caller self }
    {
        match self {
            Place::Sweep(by) if by == caller => Place::Free,
            other => other,
        }
    }
}
