//! The places in which hands that left wait for their pool.
ghost use Rattle.std.specs.Prelude.{◌≡◌, IfSome, IfErr};
ghost use Rattle.tag_c.specs.Sharing.{SharesTags};

use counted_slot::{Counted, Fits};
use tag_pool::Hand;

/// The state of a cell without a hand.
const VACANT: u64 = 0;

/// The state of a cell with a hand.
const OCCUPIED: u64 = 1 << 32;

/// Added to the state while a thread moves a hand in or out.
const MOVING: u64 = 3;

/// A hand in its cell.
#[derive(Drop)]
pub struct IdleHand {
    pub hand: Hand<u64>,
}

impl Fits for IdleHand {
    type Tag = Hand<u64>;

    ghost fits = { λ witness idle. SharesTags witness idle.hand };
}

/// A place for one hand. A contract sees it as the hand that it was made beside, and does not see whether a hand is in it:
/// only hands of the same tags fit in.
pub type HandCell = Counted<Option<IdleHand>>;

/// Returns a new, empty cell for hands that have the same tags as this one.
pub(crate) fn empty_cell(beside: &Hand<u64>) -> HandCell
    ensures { result ≡ beside.now }
{
    Counted::new(None, beside)
}

/// Takes the hand out of a cell. `None` if it has none, or if another thread is moving a hand in or out.
pub(crate) fn take_from(cell: &HandCell) -> Option<Hand<u64>>
    ensures { IfSome result (SharesTags cell.now) }
{
    if cell.load() != OCCUPIED {
        return None;
    }
    let (found, claim) = cell.turn(OCCUPIED, OCCUPIED + MOVING);
    if found != OCCUPIED {
        claim.done();
        return None;
    }
    let IdleHand { hand } = claim.put(None, VACANT)?;
    Some(hand)
}

/// Puts a hand into a cell. Returns it if the cell is not empty, or if another thread is moving a hand in or out.
pub(crate) fn put_into(cell: &HandCell, hand: Hand<u64>) -> Result<(), Hand<u64>>
    requires { SharesTags cell.now hand }
    ensures { IfErr result (λ back. back ≡ hand) }
{
    let (found, claim) = cell.turn(VACANT, VACANT + MOVING);
    if found != VACANT {
        claim.done();
        return Err(hand);
    }
    claim.put(Some(IdleHand { hand }), OCCUPIED);
    Ok(())
}
