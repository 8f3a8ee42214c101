//! Who waits for a tag, and who has to see to one: what the steps of callers say of it, and the law that nobody sleeps
//! beside a free tag unless somebody is on the way to it.
#![tactic(auto)]

mod found;
mod laws;
mod settling;
mod sleeping;
mod spot;
mod telling;
mod told;
mod waiting;

pub use laws::{
    each_state_is_safe, first_come_first_told, no_tag_is_forgotten, nobody_is_forgotten,
    nobody_rests_beside_a_free_tag, one_round_is_enough, turns_are_in_order,
};
pub use settling::settle;
pub use sleeping::{Woken, sleep, wake};
pub use spot::Spot;
pub use telling::{finds_waiters, see_to};
pub use told::Told;
pub use waiting::{Turn, get_up, is_told, list_self};
