//! Reads all lines of a script before any is carried out.
ghost use Rattle.std.specs.Prelude.{◌≡◌, ◌≤◌, length, vec_len, IfOk, IfErr};
ghost use Rattle.tag_lines.specs.Readings.{AreReadings, IsListFault};
ghost use Rattle.tag_lines.specs.ScriptLines.{order_of};

use crate::dialect::Dialect;
use crate::fault::{FaultyLine, ListFault};
use crate::lines::cut_line;
use crate::order::{Order, read_order};
use std::alloc::Global;

/// Reads a script, one order per line: the orders in order, or the first malformed line. `dialect` says which commands
/// there are, and `callers` bounds the callers' numbers.
pub fn orders(
    alloc: Global,
    dialect: Dialect,
    callers: u32,
    text: &[u8],
) -> Result<Vec<Order>, ListFault>
    ensures orders { IfOk result (λ orders. AreReadings (order_of dialect callers) text.now orders.items) }
    ensures few { IfOk result (λ orders. vec_len orders ≤ length text.now) }
    ensures fault { IfErr result (IsListFault (order_of dialect callers) text.now) }
{
    let mut orders = Vec::new(alloc);
    let mut rest = text;
    while !rest.is_empty() {
        let (line, after) = cut_line(rest);
        let order = match read_order(alloc, dialect, callers, line) {
            Ok(Ok(order)) => order,
            Ok(Err(cause)) => {
                let number = orders.len() as u64 + 1;
                return Err(ListFault::Faulty(FaultyLine { number, cause }));
            }
            Err(_) => return Err(ListFault::Memory),
        };
        if orders.push(order).is_err() {
            return Err(ListFault::Memory);
        }
        rest = after;
    }
    Ok(orders)
}
