//! Lists of tags that a caller names.
ghost use Rattle.std.specs.Prelude.{◌≡◌, ◌≢◌, ◌<◌, ◌≤◌, ◌↔◌, false, All, AllPairs, IsTrue};
ghost use Rattle.std.specs.List.{Any};
ghost use Rattle.tag_pool.specs.Runs.{NamesTwice};

/// Returns whether each number in the list is below the depth.
pub fn are_below(tags: &[u32], depth: u32) -> bool
    ensures below { IsTrue result ↔ All (λ tag. tag < depth) tags.now }
    ensures beyond { (result ≡ false) ↔ Any (λ tag. depth ≤ tag) tags.now }
{
    for tag in tags {
        if *tag >= depth {
            return false;
        }
    }
    true
}

/// Returns whether no number in the list is below `first`.
pub(crate) fn are_from(tags: &[u32], first: u32) -> bool
    ensures { IsTrue result ↔ All (λ tag. first ≤ tag) tags.now }
{
    for tag in tags {
        if *tag < first {
            return false;
        }
    }
    true
}

/// Returns whether no number is in the list twice. It compares each with those before it: at most 2,016 pairs for 64.
pub fn are_distinct(tags: &[u32]) -> bool
    ensures distinct { IsTrue result ↔ AllPairs (λ a b. a ≢ b) tags.now }
    ensures twice { (result ≡ false) ↔ NamesTwice tags.now }
{
    for i in 0..tags.len() {
        if tags[..i].contains(&tags[i]) {
            return false;
        }
    }
    true
}
