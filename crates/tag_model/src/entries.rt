//! Where each tag is, and where an event is about to bring it.
ghost use Rattle.std.specs.Prelude.{◌≡◌, ◌≢◌, ℕ, ◌<◌, IfOk, MatchBool, MatchOption, replicate, length, slice_index_or};
ghost use Rattle.sums.specs.Below.{count_below};
ghost use Rattle.tag_layout.specs.Layout.{words};
ghost use Rattle.tag_model.specs.declared.place.Place.TheVariants.{Free};
ghost use Rattle.tag_model.specs.Event.{IsInLayout};
ghost use Rattle.tag_model.specs.Totals.{is_held, is_posted};
ghost use Rattle.tag_model.specs.Entries.{is_turned, AreReady, SamePlaces, Turns};
ghost use Rattle.tag_model.specs.Kept.{AreAccepted, MissesOne, MovesTags};

use crate::event::Event;
use crate::place::Place;
use std::alloc::{AllocError, Global};
use std::marker::Model;
use tag_layout::Layout;

/// Two entries for each tag, of which a bit of the tag's word says which counts. An event makes its places ready in the
/// others, as it tests its tags; then it turns the bits of its word, all at once. So a fault has nothing to undo, and an
/// event visits no tag twice.
#[derive(Drop)]
pub(crate) struct Entries {
    layout: Layout,
    /// The entries that count where the tag's bit is 0, in the order of the tags.
    even: Vec<Place>,
    /// Those that count where it is 1.
    odd: Vec<Place>,
    /// A bit for each tag, by words.
    turned: Vec<u64>,
}

impl Model for Entries {
    ghost use Rattle.std.specs.Prelude.{◌≡◌, length};
    ghost use Rattle.tag_layout.specs.Layout.{words};
    ghost use Rattle.tag_model.specs.Entries.{KeptEntries, chosen};

    ghost Value = { KeptEntries };

    ghost view = { λ e. record {
      layout = e.layout;
      places = chosen e.layout e.turned.items e.even.items e.odd.items;
      ready = chosen e.layout e.turned.items e.odd.items e.even.items;
    } };

    ghost invariant = { λ e. (length e.even.items ≡ e.layout.depth) × (length e.odd.items ≡ e.layout.depth)
        × (length e.turned.items ≡ words e.layout) };
}

impl Entries {
    /// Entries of a layout's tags, all of which are free.
    pub(crate) fn open(alloc: Global, layout: Layout) -> Result<Entries, AllocError>
        ensures layout { IfOk result (λ e. e.layout ≡ layout) }
        ensures all_free { IfOk result (λ e. e.places ≡ replicate layout.depth Free) }
    {
        Ok(Entries {
            layout,
            even: vec![in alloc; Place::Free; layout.depth() as usize]?,
            odd: vec![in alloc; Place::Free; layout.depth() as usize]?,
            turned: vec![in alloc; 0; layout.words() as usize]?,
        })
    }

    /// The layout of the tags.
    pub(crate) fn layout(&self) -> Layout
        ensures { result ≡ self.now.layout }
    {
        self.layout
    }

    /// Where the tag is.
    pub(crate) fn place(&self, tag: u32) -> Place
        requires { tag < self.now.layout.depth }
        ensures { result ≡ slice_index_or self.now.places tag Free }
    {
        let at = tag as usize;
        if is_turned(&self.turned, self.layout, tag) {
            self.odd[at]
        } else {
            self.even[at]
        }
    }

    /// How many tags are held.
    pub(crate) fn held(&self) -> u64
        ensures { result ≡ count_below (λ tag. is_held (slice_index_or self.now.places tag Free)) self.now.layout.depth }
    {
        let mut held = 0u64;
        for tag in 0..self.layout().depth() {
            if self.place(tag).is_held() {
                held += 1;
            }
        }
        held
    }

    /// How many tags are posted.
    pub(crate) fn posted(&self) -> u64
        ensures { result ≡ count_below (λ tag. is_posted (slice_index_or self.now.places tag Free)) self.now.layout.depth }
    {
        let mut posted = 0u64;
        for tag in 0..self.layout().depth() {
            if self.place(tag).is_posted() {
                posted += 1;
            }
        }
        posted
    }

    /// Brings the tags that the event names to their new places, if each of them is where the event needs it.
    pub(crate) fn bring(&mut self, event: Event) -> bool
        requires { IsInLayout self.old.layout event }
        ensures layout { self.new.layout ≡ self.old.layout }
        ensures moved { MatchBool result
            (AreAccepted self.old.layout event self.old.places × MovesTags self.old.layout event self.old.places self.new.places)
            (MissesOne self.old.layout event self.old.places × (self.new.places ≡ self.old.places)) }
    {
        if !self.prepare(event) {
            return false;
        }
        if let Some((word, mask)) = event.mask(self.layout()) {
            self.turn(word, mask);
        }
        true
    }

    /// Tests the tags that the event names one after another, and makes the next place of each ready.
    fn prepare(&mut self, event: Event) -> bool
        requires { IsInLayout self.old.layout event }
        ensures same { SamePlaces self.old self.new }
        ensures ready { MatchBool result (AreReady event self.new) (MissesOne self.old.layout event self.old.places) }
    {
        let layout = self.layout();
        let span = event.span(layout);
        for tag in span.start..span.end {
            if event.names(layout, tag) {
                let place = self.place(tag);
                if !event.accepts(place) {
                    return false;
                }
                self.make_ready(tag, event.brings(place));
            }
        }
        true
    }

    /// Writes the tag's entry that doesn't count.
    fn make_ready(&mut self, tag: u32, place: Place)
        requires { tag < self.old.layout.depth }
        ensures same { SamePlaces self.old self.new }
        ensures here { slice_index_or self.new.ready tag Free ≡ place }
        ensures others { (other : ℕ) → other < self.old.layout.depth → other ≢ tag
            → slice_index_or self.new.ready other Free ≡ slice_index_or self.old.ready other Free }
    {
        let at = tag as usize;
        if is_turned(&self.turned, self.layout, tag) {
            self.even[at] = place;
        } else {
            self.odd[at] = place;
        }
    }

    /// Makes what is ready for the tags of the mask count, all at once.
    fn turn(&mut self, word: u32, mask: u64)
        requires { word < words self.old.layout }
        ensures { Turns word mask self.old self.new }
    {
        let at = word as usize;
        let turned = self.turned[at] ^ mask;
        self.turned[at] = turned;
    }
}

/// Whether the tag's odd entry counts.
fn is_turned(turned: &[u64], layout: Layout, tag: u32) -> bool
    requires tag { tag < layout.depth }
    requires words { length turned.now ≡ words layout }
    ensures { result ≡ is_turned layout turned.now tag }
{
    (turned[layout.word_of(tag) as usize] >> layout.place_of(tag)) & 1 == 1
}
