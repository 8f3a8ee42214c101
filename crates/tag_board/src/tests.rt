//! Scripts of several callers with answers worked out on paper.
mod calls;
mod memory;
mod scripts;
