//! Whole runs: what they read, what they write, and how they end.
mod ends;
mod plays;
mod words;
