//! Lists of tags that are given back at once.
ghost use Rattle.std.specs.Prelude.{◌≡◌, ◌≢◌, ◌<◌, ◌≤◌, ◌⊎◌, true, false, length, MatchBool};
ghost use Rattle.std.specs.List.{All, AllPairs, Any};
ghost use Rattle.tag_search.specs.Plain.{plain_words, is_busy_tag};
ghost use Rattle.tag_search.specs.Pool.{pool_of};
ghost use Rattle.tag_pool.specs.Runs.{NamesTwice};
ghost use Rattle.tag_script.specs.PlainWorld.{freed};

use tag_pool::are_distinct;
use tag_search::{PlainPort, Port};

/// Returns whether each tag of the list is held, and the tags are distinct.
pub(crate) fn are_held_once(port: &PlainPort, tags: &[u32]) -> bool
    requires { All (λ tag. tag < port.now.layout.depth) tags.now }
    ensures { let held = is_busy_tag port.now in MatchBool result
        (All (λ tag. held tag ≡ true) tags.now × AllPairs (λ a b. a ≢ b) tags.now)
        (Any (λ tag. held tag ≡ false) tags.now ⊎ NamesTwice tags.now) }
{
    for tag in tags {
        if !port.taken(*tag) {
            return false;
        }
    }
    are_distinct(tags)
}

/// Frees the tags of the list. Neighbours in the list that are in the same word take one step.
pub(crate) fn give_all(port: &mut PlainPort, tags: &[u32])
    requires some { 1 ≤ length tags.now }
    requires there { All (λ tag. tag < port.old.layout.depth) tags.now }
    requires held { All (λ tag. is_busy_tag port.old tag ≡ true) tags.now }
    requires once { AllPairs (λ a b. a ≢ b) tags.now }
    ensures layout { port.new.layout ≡ port.old.layout }
    ensures pool { pool_of (plain_words port.new) ≡ freed port.old.layout tags.now (pool_of (plain_words port.old)) }
{
    let layout = port.layout();
    let mut word = layout.word_of(tags[0]);
    let mut mask = 0u64;
    for tag in tags {
        let here = layout.word_of(*tag);
        let bit = 1u64 << layout.place_of(*tag);
        if here == word {
            mask |= bit;
        } else {
            port.give(word, mask);
            word = here;
            mask = bit;
        }
    }
    port.give(word, mask);
}
