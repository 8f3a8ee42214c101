//! The interface of a search to the words.
ghost use Rattle.std.specs.Prelude.{◌≡◌, ℕ, ◌+◌, ◌^◌, ◌<◌, ◌↔◌, List, [], ◌∷◌, ◌++◌, IsTrue, IfOk, IfSome, IfNone, IsOk, OnErr, count_ones, IfErr};
ghost use Rattle.std.specs.Int.{bit_at};
ghost use Rattle.tag_layout.specs.Layout.{Layout as Sizes, words, word_depth, IsWithin};
ghost use Rattle.tag_core.specs.declared.word_step.WordStep.{WordStep};
ghost use Rattle.tag_core.specs.declared.word_step.WordStep.TheVariants.{Look, Claimed};
ghost use Rattle.tag_core.specs.Steps.{without};
ghost use Rattle.tag_search.specs.Search.{IsSweep, IsLeastKept};
ghost use Rattle.tag_search.specs.Added.{AddsSteps, SameRoom};

use tag_core::Claim;
use tag_layout::Layout;

/// One caller's access to the words of a map. Between two of its calls, other callers may change the words.
pub trait Port {
    /// The layout of the map behind the port.
    ghost sizes: { Self → Sizes };

    /// Whether the port may be used. Each call requires it and preserves it.
    ghost ready: { Self → Type 0 };

    /// Whether the caller may win that many more tags.
    ghost has_room: { Self → ℕ → Type 0 };

    /// The port made these steps, oldest first, between the two states.
    ghost adds: { Self → List WordStep → Self → Type 0 };

    /// Returns the layout of the map.
    fn layout(&self) -> Layout
        requires port { ready self.now }
        ensures value { result ≡ sizes self.now };

    /// Returns whether the caller may win `n` more tags.
    fn room(&self, n: u32) -> bool
        requires port { ready self.now }
        ensures value { IsTrue result ↔ has_room self.now n };

    /// Loads a word: 1 is taken.
    fn look(&mut self, word: u32) -> u64
        requires port { ready self.old }
        requires word { word < words (sizes self.old) }
        ensures port { ready self.new }
        ensures sizes { sizes self.new ≡ sizes self.old }
        ensures room { SameRoom has_room self.old self.new }
        ensures step { adds self.old (Look word result ∷ []) self.new };

    /// Takes the tags of the mask that are free at that moment. The mask has `asked` bits, and there is room for so many.
    fn claim(&mut self, word: u32, mask: u64, asked: u32) -> Claim
        requires port { ready self.old }
        requires word { word < words (sizes self.old) }
        requires mask { IsWithin (sizes self.old) word mask }
        requires asked { asked ≡ count_ones mask }
        requires room { has_room self.old asked }
        ensures port { ready self.new }
        ensures sizes { sizes self.new ≡ sizes self.old }
        ensures won { result.won ≡ without mask result.found }
        ensures uses_room { (n : ℕ) → has_room self.new n ↔ has_room self.old (count_ones result.won + n) }
        ensures step { adds self.old (Claimed word mask result.found ∷ []) self.new };

    /// Claims one place, for which there is room. If it was taken, returns the word as the claim found it.
    fn claim_one(&mut self, word: u32, place: u32) -> Result<(), u64>
        requires port { ready self.old }
        requires room { has_room self.old 1 }
        requires word { word < words (sizes self.old) }
        requires place { place < word_depth (sizes self.old) word }
        requires width { place < 64 }
        ensures port { ready self.new }
        ensures sizes { sizes self.new ≡ sizes self.old }
        ensures won { IfOk result (λ _. (found : ℕ) × (bit_at found place ≡ 0)
            × adds self.old (Claimed word (2 ^ place) found ∷ []) self.new) }
        ensures lost { IfErr result (λ found. (bit_at found place ≡ 1) × SameRoom has_room self.old self.new
            × adds self.old (Claimed word (2 ^ place) found ∷ []) self.new) };

    /// Frees the tags of a word that were set aside, and returns their mask.
    fn sweep(&mut self, word: u32) -> u64
        requires port { ready self.old }
        requires word { word < words (sizes self.old) }
        ensures port { ready self.new }
        ensures sizes { sizes self.new ≡ sizes self.old }
        ensures room { SameRoom has_room self.old self.new }
        ensures steps { AddsSteps adds self.old self.new (IsSweep word result) };

    /// Takes the tags of a word that were set aside, of which the least stays with the caller and the others become free.
    /// Returns its place. `None` if there were none.
    fn sweep_keeping(&mut self, word: u32) -> Option<u32>
        requires port { ready self.old }
        requires word { word < words (sizes self.old) }
        requires room { has_room self.old 1 }
        ensures port { ready self.new }
        ensures sizes { sizes self.new ≡ sizes self.old }
        ensures room { IfNone result (SameRoom has_room self.old self.new) }
        ensures place { IfSome result (λ place. place < word_depth (sizes self.old) word) }
        ensures kept { IfSome result (λ place. AddsSteps adds self.old self.new (IsLeastKept word place)) }
        ensures none { IfNone result (AddsSteps adds self.old self.new (IsSweep word 0)) };

    /// No steps lead from a state to itself.
    ghost adds_none: { (p : Self) → adds p [] p };

    /// The steps of one call, followed by those of the next.
    ghost adds_more: { (p q r : Self) (xs ys : List WordStep) → adds p xs q → adds q ys r → adds p (xs ++ ys) r };
}
