//! Scripts of callers that share tags.
ghost use Rattle.std.specs.Prelude.{◌≡◌, ◌<◌, ◌^◌, IfOk, IfErr, All};
ghost use Rattle.tag_script.specs.Setups.{IsOpenFault};
ghost use Rattle.tag_board.specs.Boards.{state_of};
ghost use Rattle.tag_board.specs.Opening.{IsOpen};
ghost use Rattle.tag_script.specs.SharedScript.{IsToldShared, IsRefusedShared, IsAllowed, tag_options};

use crate::callers::Callers;
use crate::fault::OpenFault;
use crate::options::ScriptOptions;
use crate::running::run_orders;
use std::alloc::Global;
use std::sync::Wait;
use tag_board::Board;
use tag_lines::Order;
use tag_queue::{MAX_CAP, QueueOpenFault};

/// Runs the orders of callers that share tags, and returns the output.
pub(crate) fn run_shared<W: Wait>(
    rt: &W,
    alloc: Global,
    options: &ScriptOptions,
    orders: &[Order],
) -> Result<Vec<u8>, OpenFault>
    requires known { All (λ order. order.caller < options.now.callers) orders.now }
    ensures told { IfOk result (λ text. IsToldShared options.now orders.now text.items) }
    ensures fault { IfErr result (IsOpenFault (IsRefusedShared options.now)) }
{
    let board = open(alloc, options)?;
    match run_orders(alloc, Callers::new(rt, alloc, board), orders) {
        Ok(text) => Ok(text),
        Err(_) => Err(OpenFault::Memory),
    }
}

/// Opens the board that the options describe.
fn open(alloc: Global, options: &ScriptOptions) -> Result<Board, OpenFault>
    ensures allowed { IfOk result (λ board. IsAllowed options.now) }
    ensures new { IfOk result (λ board. IsOpen (tag_options options.now) (2 ^ 56) (state_of board)) }
    ensures fault { IfErr result (IsOpenFault (IsRefusedShared options.now)) }
{
    match Board::open(alloc, options.tag_options(), MAX_CAP) {
        Ok(board) => Ok(board),
        Err(QueueOpenFault::Memory) => Err(OpenFault::Memory),
        Err(fault) => Err(OpenFault::Setup(fault)),
    }
}
