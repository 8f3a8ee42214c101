//! Sums over the numbers below a bound, and their laws. It is for proofs alone: nothing here runs.
#![tactic(auto)]
