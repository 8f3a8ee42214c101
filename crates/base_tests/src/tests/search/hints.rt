//! The hints of the reference search, by their definition.
ghost use Rattle.std.specs.Prelude.{◌≡◌, ◌+◌, ◌<◌, ◌≤◌, false, IfSome};
ghost use Rattle.tag_search.specs.Follows.{HintFollows, BatchFollows};
ghost use Rattle.tag_search.specs.Hints.{reduced};

use tag_search::Hint;

/// Returns the tag at which a search begins.
pub(crate) fn reduced(depth: u32, hint: Hint) -> u32
    ensures { result ≡ reduced depth hint.at }
{
    if depth == 0 { 0 } else { hint.at % depth }
}

/// Returns the hint after a get that began at this one.
pub(crate) fn hint_after(depth: u32, hint: Hint, answer: Option<u32>) -> Hint
    ensures { HintFollows depth hint result answer }
{
    let from = reduced(depth, hint);
    let at = match answer {
        None => 0,
        Some(tag) if !hint.round_robin && tag != from => from,
        Some(tag) if u64::from(tag) + 2 < u64::from(depth) => tag + 1,
        Some(_) => 0,
    };
    Hint {
        at,
        round_robin: hint.round_robin,
    }
}

/// Returns the hint after a batch get of `n` that began at this one.
pub(crate) fn hint_after_batch(depth: u32, hint: Hint, n: u32, answer: Option<(u32, u64)>) -> Hint
    requires way { hint.round_robin ≡ false }
    requires answer { IfSome answer (λ won. (1 ≤ n) × (won.0 + n ≤ depth)) }
    ensures { BatchFollows depth n hint result answer }
{
    match answer {
        None => Hint {
            at: reduced(depth, hint),
            round_robin: false,
        },
        Some((tag, _)) => hint_after(depth, hint, Some(tag + n - 1)),
    }
}
