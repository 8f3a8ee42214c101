//! The tag at which the next search begins, with the rules of lib/sbitmap.c.
ghost use Rattle.std.specs.Prelude.{◌≡◌, ℕ, ◌<◌, ◌≤◌, false, IfSome, Some, if◌then◌else◌};
ghost use Rattle.tag_search.specs.Hints.{reduced, hint_after_get, next_hint};

/// The tag at which a caller's next search begins.
#[derive(Clone, Copy, Debug, PartialEq, Eq)]
pub struct Hint {
    /// The tag to begin at. A search reduces it modulo the depth if it is not below it.
    pub at: u32,
    /// Whether gets are round robin: each begins after the last tag won, and tries no earlier place of the hint's word.
    pub round_robin: bool,
}

impl Hint {
    /// Returns the tag at which a search of this depth begins, or 0 if there are no tags.
    #[inline]
    pub(crate) fn reduced(self, depth: u32) -> u32
        ensures { result ≡ reduced depth self.at }
    {
        if self.at < depth {
            self.at
        } else {
            reduce(self.at, depth)
        }
    }

    /// Moves the hint after a search that began at `from`.
    #[inline]
    pub(crate) fn follow(&mut self, depth: u32, from: u32, answer: Option<u32>)
        requires { IfSome answer (λ tag. tag < depth) }
        ensures { self.new ≡ record self.old { at = hint_after_get depth self.old.round_robin from answer } }
    {
        self.at = self.after_get(depth, from, answer);
    }

    /// Moves the hint after a search without round robin that began at it and won this tag: it stays unless the tag is its
    /// own.
    #[inline]
    pub(crate) fn follow_win(&mut self, depth: u32, tag: u32)
        requires below { tag < depth }
        requires plain { self.old.round_robin ≡ false }
        ensures { self.new ≡ record self.old { at = hint_after_get depth self.old.round_robin self.old.at (Some tag) } }
    {
        if tag == self.at {
            self.at = next_hint(depth, tag);
        }
    }

    /// Where the hint goes after a search that began at `from`.
    #[inline]
    pub(crate) fn after_get(self, depth: u32, from: u32, answer: Option<u32>) -> u32
        requires { IfSome answer (λ tag. tag < depth) }
        ensures { result ≡ hint_after_get depth self.round_robin from answer }
    {
        match answer {
            None => 0,
            Some(tag) if tag == from || self.round_robin => next_hint(depth, tag),
            Some(_) => from,
        }
    }
}

/// Moves the hint of a caller that cleared a tag to that tag, except under round robin.
#[inline]
pub fn after_clear(hint: &mut Hint, tag: u32)
    ensures at { hint.new.at ≡ (if hint.old.round_robin then hint.old.at else tag) }
    ensures round_robin { hint.new.round_robin ≡ hint.old.round_robin }
{
    if !hint.round_robin {
        hint.at = tag;
    }
}

/// Reduces a hint at or past the depth modulo the depth, where lib/sbitmap.c draws a random tag instead.
#[cold]
fn reduce(at: u32, depth: u32) -> u32
    requires { depth ≤ at }
    ensures { result ≡ reduced depth at }
{
    if depth == 0 { 0 } else { at % depth }
}

/// Returns the tag after this one, or 0 if that would be the last tag or past it.
fn next_hint(depth: u32, tag: u32) -> u32
    requires { tag < depth }
    ensures { result ≡ next_hint depth tag }
{
    if tag + 1 < depth - 1 { tag + 1 } else { 0 }
}
