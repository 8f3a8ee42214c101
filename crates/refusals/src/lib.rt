//! The order of the causes for which a call is refused, and its laws. It is for proofs alone: nothing here runs.
#![tactic(auto)]
