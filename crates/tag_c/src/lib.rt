//! Tags for C programs: a handle for a pool of tags, and a handle for each thread that takes tags from it.
#![tactic(auto)]

mod any_hand;
mod bell;
mod box_parts;
mod cached;
mod clears;
mod codes;
mod erased;
mod flush;
mod gets;
mod hand_cells;
mod handle;
mod looks;
mod masks;
mod member;
mod object;
mod options;
mod pairs;
mod pool;
mod pool_state;
mod pools;
mod reports;
mod resizes;
mod rounds;
mod status;
mod structs;
mod telling;
mod values;
