//! Tests of caches, beside bare hands.

mod batches;
mod clears;
mod exact;
mod keeping;
mod many;
mod reserved;
mod resizing;
mod slots;
mod tells;
mod windows;
