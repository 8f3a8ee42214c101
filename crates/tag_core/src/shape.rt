//! What a map is opened with.
use std::snapshot::Snapshot;
use tag_layout::Layout;

/// Room for the counts of all callers that a map can have.
pub(crate) const COUNTS: usize = 64;

/// What a map was opened with. It never changes.
#[derive(Drop)]
pub struct Shape {
    /// How the tags are numbered.
    pub layout: Layout,
    /// Number of callers, 1 to 64. They are numbered from 0.
    pub callers: u32,
    /// The most tags that one caller may win, at most 2^48.
    pub life: u64,
    /// Number of tags that each caller had won before this map, at the index of its number. Only contracts see it.
    pub won_before: Snapshot<[u64; COUNTS]>,
    /// Number of tags that each caller had given back before this map. Only contracts see it.
    pub back_before: Snapshot<[u64; COUNTS]>,
}
