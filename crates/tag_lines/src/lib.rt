//! Parses lines: a line into words, and words into numbers, orders and events.
#![tactic(auto)]

mod dialect;
mod event_list;
mod fault;
mod lines;
mod numbers;
mod order;
mod order_list;
mod refusal;
mod tag_list;

pub use dialect::Dialect;
pub use event_list::events;
pub use fault::{FaultyLine, LineFault, ListFault, Misfit};
pub use lines::{LINE_FEED, MAX_INPUT, cut_line, cut_word, has_gap};
pub use numbers::{number, short_number};
pub use order::{Command, Order, read_order};
pub use order_list::orders;
pub use refusal::{Place, Refusal};
pub use tag_list::{TagList, read_tags};
