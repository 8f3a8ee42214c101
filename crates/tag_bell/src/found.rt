//! What a caller in a round finds at the berths that it looks at.
ghost use Rattle.std.specs.Prelude.{◌≡◌, ℕ, ◌+◌, ◌<◌, ◌≤◌, ⊤, bit_or, count_ones, length};
ghost use Rattle.std.specs.Int.{bit_at};
ghost use Rattle.tag_model.specs.declared.world.TheConstants.{MAX_CALLERS};
ghost use Rattle.tag_core.specs.declared.berth.Waiter.{Waiter as WaiterIs};
ghost use Rattle.tag_core.specs.declared.berth.Waiter.TheVariants.{Listener, Sleeper};
ghost use Rattle.tag_core.specs.Callers.{IsCallerOf, record_of};
ghost use Rattle.tag_core.specs.Holding.{HoldsSame};
ghost use Rattle.tag_bell.specs.Coming.{coming_bit, coming_in};
ghost use Rattle.tag_bell.specs.Lines.{AreLines, GoesOn, IsNoted, listed_bit, nobody_of};
ghost use Rattle.tag_bell.specs.Telling.{IsDoneOutside};

use tag_core::{Berth, Caller, Map, Waiter};
use tag_model::MAX_CALLERS;

/// Room for the turns of all callers.
pub(crate) const ROOM: usize = 64;

/// Those found listed and those found told, a bit for the number of each.
#[derive(Clone, Copy)]
pub(crate) struct Masks {
    /// Those listed as sleepers.
    pub(crate) sleepers: u64,
    /// Those listed as listeners.
    pub(crate) listeners: u64,
    /// Sleepers that were told and are not up yet. Each of them comes to every tag.
    pub(crate) coming: u64,
}

impl Masks {
    /// Only those that come.
    pub(crate) fn of_coming(coming: u64) -> Masks
        ensures { (result.sleepers ≡ 0) × (result.listeners ≡ 0) × (result.coming ≡ coming) }
    {
        Masks {
            sleepers: 0,
            listeners: 0,
            coming,
        }
    }

    /// Notes what was found at the berth of this number.
    #[tactic(auto, using(crate::proofs::Noting::none_marked))]
    pub(crate) fn note(&mut self, number: u32, berth: Berth)
        requires { number < MAX_CALLERS }
        ensures sleepers { self.new.sleepers ≡ bit_or self.old.sleepers (listed_bit Sleeper number berth) }
        ensures listeners { self.new.listeners ≡ bit_or self.old.listeners (listed_bit Listener number berth) }
        ensures coming { self.new.coming ≡ bit_or self.old.coming (coming_bit number berth) }
    {
        match berth {
            Berth::Listed(waiter, _) => match waiter {
                Waiter::Sleeper => self.sleepers |= 1 << number,
                Waiter::Listener => self.listeners |= 1 << number,
            },
            Berth::Up => {}
            Berth::Told(waiter, _) => match waiter {
                Waiter::Sleeper => self.coming |= 1 << number,
                Waiter::Listener => {}
            },
        }
    }
}

/// Those found, and the turns of those listed.
#[derive(Drop)]
pub(crate) struct Found {
    /// Whom it found.
    pub(crate) masks: Masks,
    /// The turn of each that is listed, at the index of its number.
    pub(crate) turns: [u64; ROOM],
}

impl Found {
    /// Notes what was found at the berth of this number, which was not noted as listed before.
    pub(crate) fn note(&mut self, number: u32, berth: Berth)
        requires within { number < MAX_CALLERS }
        requires first { (bit_at self.old.masks.sleepers number ≡ 0) × (bit_at self.old.masks.listeners number ≡ 0) }
        requires room { length self.old.turns ≡ MAX_CALLERS }
        ensures room { length self.new.turns ≡ MAX_CALLERS }
        ensures sleepers { IsNoted Sleeper number berth self.old.masks.sleepers self.old.turns
            self.new.masks.sleepers self.new.turns }
        ensures listeners { IsNoted Listener number berth self.old.masks.listeners self.old.turns
            self.new.masks.listeners self.new.turns }
        ensures coming { self.new.masks.coming ≡ bit_or self.old.masks.coming (coming_bit number berth) }
        ensures few { count_ones self.new.masks.sleepers + count_ones self.new.masks.listeners
            ≤ count_ones self.old.masks.sleepers + count_ones self.old.masks.listeners + 1 }
    {
        self.masks.note(number, berth);
        if let Berth::Listed(_, turn) = berth {
            self.turns[number as usize] = turn;
        }
    }
}

/// Looks once at the berth of each caller that was found waiting. Returns whom it finds listed, and who comes.
pub(crate) fn look_at_each<R>(map: &Map<R>, caller: &mut Caller<R>, waiting: u64) -> Masks
    requires caller { IsCallerOf map.now caller.old }
    requires others { (kind : WaiterIs) → IsDoneOutside kind waiting caller.old }
    requires coming { coming_in (record_of caller.old).steps ≡ 0 }
    ensures caller { IsCallerOf map.now caller.new }
    ensures sleepers { IsDoneOutside Sleeper result.sleepers caller.new }
    ensures listeners { IsDoneOutside Listener result.listeners caller.new }
    ensures coming { result.coming ≡ coming_in (record_of caller.new).steps }
    ensures goes { GoesOn MAX_CALLERS nobody_of caller.old caller.new }
    ensures kept { HoldsSame caller.old caller.new }
{
    let mut masks = Masks::of_coming(0);
    for number in 0..bits_of(waiting) {
        if waiting >> number & 1 == 1 {
            let berth = map.look_at(caller, number);
            masks.note(number, berth);
        }
    }
    masks
}

/// Looks once more at the berth of each of these callers, and notes the turns of those that it finds listed.
pub(crate) fn look_again<R>(map: &Map<R>, caller: &mut Caller<R>, listed: u64, found: &mut Found)
    requires caller { IsCallerOf map.now caller.old }
    requires others { (kind : WaiterIs) → IsDoneOutside kind listed caller.old }
    requires none { (found.old.masks.sleepers ≡ 0) × (found.old.masks.listeners ≡ 0) }
    requires coming { found.old.masks.coming ≡ coming_in (record_of caller.old).steps }
    requires room { length found.old.turns ≡ MAX_CALLERS }
    ensures caller { IsCallerOf map.now caller.new }
    ensures lines { AreLines (λ e. ⊤) found.new.masks.sleepers found.new.masks.listeners found.new.turns
        (record_of caller.new).steps }
    ensures coming { found.new.masks.coming ≡ coming_in (record_of caller.new).steps }
    ensures few { count_ones found.new.masks.sleepers + count_ones found.new.masks.listeners ≤ MAX_CALLERS }
    ensures goes { GoesOn MAX_CALLERS nobody_of caller.old caller.new }
    ensures kept { HoldsSame caller.old caller.new }
{
    for number in 0..bits_of(listed) {
        if listed >> number & 1 == 1 {
            let berth = map.look_at(caller, number);
            found.note(number, berth);
        }
    }
}

/// Returns the number of bits of a mask up to its highest 1: no caller from there on is in it.
pub(crate) fn bits_of(callers: u64) -> u32
    ensures within { result ≤ MAX_CALLERS }
    ensures above { (e : ℕ) → result ≤ e → bit_at callers e ≡ 0 }
{
    MAX_CALLERS - callers.leading_zeros()
}
