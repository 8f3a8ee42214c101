//! What a play carried out.

use crate::io::Done;
use tag_model::Totals;

/// What a play carried out, and the totals of its tags.
#[derive(Drop)]
pub struct Report {
    /// The totals of both sets of tags.
    pub totals: Totals,
    /// What was carried out, in order.
    pub done: Vec<Done>,
}
