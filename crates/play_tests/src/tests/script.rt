//! Scripts and lists of events with outputs worked out on paper.
mod dumps;
mod lists;
mod refused;
mod scripts;
mod shared;
