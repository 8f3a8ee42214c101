//! A map of tags, and the rule of its table.
ghost use Rattle.std.specs.Prelude.{◌≡◌, ◌≤◌, [], vec_capacity};
ghost use Rattle.tag_model.specs.declared.world.TheConstants.{MAX_CALLERS, MOST_WON};
ghost use Rattle.tag_layout.specs.declared.layout.TheConstants.{MAX_DEPTH, MAX_SHIFT};
ghost use Rattle.tag_core.specs.Spacing.{table_width};
ghost use Rattle.tag_core.specs.Chain.{HasChain};

use crate::record::View;
use crate::shape::Shape;
use atomic_table::{Table, TableRule};
use std::alloc::Global;

/// The rule of a map's table.
#[derive(Drop)]
pub struct MapRule;

impl<R> TableRule<R, View<R>, Shape> for MapRule {
    ghost use Rattle.tag_core.specs.Rule.{Shown};
    ghost use Rattle.tag_core.specs.Views.{all_fresh};

    ghost holds = { λ k. Shown k };

    ghost first = { λ k. all_fresh k };
}

/// Tags that its callers share without a lock. Each step call is one atomic step, or two where it says so.
#[derive(Drop)]
pub struct Map<R> {
    /// The words, the cleared sets and the states, each 64 bytes from the next, and the slots of the tags.
    pub(crate) table: Table<R, View<R>, Shape, MapRule, Global>,
    /// What it was opened with.
    pub(crate) shape: Shape,
    /// Room for the slots when the map ends.
    pub(crate) room: Vec<R>,
    ghost roomy: { (room.items ≡ []) × (shape.layout.depth ≤ vec_capacity room) },
    ghost told: { table.shared.key ≡ shape },
    ghost wide: { (table.shared.table_id.words ≡ table_width shape.layout) × (table.shared.table_id.slots ≡ shape.layout.depth) },
    ghost small: { (shape.layout.depth ≤ MAX_DEPTH) × (shape.layout.shift ≤ MAX_SHIFT) },
    ghost chain: { HasChain R shape },
    ghost few: { (1 ≤ shape.callers) × (shape.callers ≤ MAX_CALLERS) × (shape.life ≤ MOST_WON) },
}
