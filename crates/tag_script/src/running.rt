//! Running a list of orders on a world.
ghost use Rattle.std.specs.Prelude.{◌≡◌, ◌++◌, length, IfOk, OnOk};
ghost use Rattle.std.specs.List.{All};
ghost use Rattle.tag_script.specs.Outputs.{IsRun};
ghost use Rattle.tag_script.specs.Texts.{total_line};

use crate::text::{end_line, push_totals};
use crate::world::World;
use std::alloc::{AllocError, Global};
use tag_lines::Order;
use tag_model::Totals;

/// Carries out the orders one after another. Returns the lines of their answers and the line of totals. The world is
/// closed even if memory runs out, since it may own values that cannot be dropped.
pub fn run_orders<W: World>(
    alloc: Global,
    world: W,
    orders: &[Order],
) -> Result<Vec<u8>, AllocError>
    requires ready { W.ready world (length orders.now) }
    requires known { All (W.knows world) orders.now }
    ensures { IfOk result (λ text. IsRun W.answers W.counts world orders.now text.items) }
{
    let mut text = Vec::new(alloc);
    let mut world = world;
    for order in orders {
        let (answer, next) = world.obey(order)?;
        match answer.push_to(&mut text) {
            Ok(()) => world = next,
            Err(fault) => {
                next.totals();
                return Err(fault);
            }
        }
    }
    push_total(&mut text, world.totals())?;
    Ok(text)
}

/// Appends the last line of a script.
fn push_total(text: &mut Vec<u8>, totals: Totals) -> Result<(), AllocError>
    ensures ok { OnOk result (text.new.items ≡ text.old.items ++ total_line totals) }
{
    text.extend_from_slice(b"total")?;
    push_totals(text, totals)?;
    end_line(text)
}
