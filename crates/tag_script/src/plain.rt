//! Plain scripts: one caller on plain words.
ghost use Rattle.std.specs.Prelude.{◌≡◌, ◌≤◌, length, IfOk, IfErr, All};
ghost use Rattle.tag_lines.specs.ScriptLines.{IsPlain};
ghost use Rattle.tag_script.specs.PlainCallers.{plain_world_of};
ghost use Rattle.tag_script.specs.PlainScript.{IsSetup, IsToldAlone, IsRefusedAlone, least_depth};
ghost use Rattle.tag_script.specs.Setups.{IsOpenFault};
ghost use Rattle.tag_script.specs.PlainWorld.{opened};

use crate::fault::OpenFault;
use crate::options::ScriptOptions;
use crate::plain_caller::PlainCaller;
use crate::running::run_orders;
use std::alloc::Global;
use tag_layout::{Layout, MAX_DEPTH};
use tag_lines::{MAX_INPUT, Order};
use tag_queue::QueueOpenFault;

/// Carries out the orders of one caller and returns the output, or the reason why the setup was refused.
pub(crate) fn run_alone(
    alloc: Global,
    options: &ScriptOptions,
    orders: &[Order],
) -> Result<Vec<u8>, OpenFault>
    requires known { All (λ order. IsPlain order.command) orders.now }
    requires few { length orders.now ≤ MAX_INPUT }
    ensures told { IfOk result (λ text. IsToldAlone options.now orders.now text.items) }
    ensures fault { IfErr result (IsOpenFault (IsRefusedAlone options.now)) }
{
    let world = open(alloc, options)?;
    match run_orders(alloc, world, orders) {
        Ok(text) => Ok(text),
        Err(_) => Err(OpenFault::Memory),
    }
}

/// Opens the world with these options: one caller, and all tags free. The first limit exceeded is the reason.
fn open(alloc: Global, options: &ScriptOptions) -> Result<PlainCaller, OpenFault>
    ensures setup { IfOk result (λ world. IsSetup options.now (plain_world_of world).layout) }
    ensures opened { IfOk result (λ world. plain_world_of world
        ≡ opened (plain_world_of world).layout options.now.round_robin (least_depth options.now.min_shallow)) }
    ensures fault { IfErr result (IsOpenFault (IsRefusedAlone options.now)) }
{
    if options.tags > MAX_DEPTH {
        return Err(OpenFault::Setup(QueueOpenFault::TotalTooLarge));
    }
    if options.reserved > 0 {
        return Err(OpenFault::Setup(QueueOpenFault::ReservedTooLarge));
    }
    let Ok(layout) = Layout::new(options.tags, options.shift) else {
        return Err(OpenFault::Setup(QueueOpenFault::ShiftTooLarge));
    };
    if options.callers != 1 {
        return Err(OpenFault::Setup(QueueOpenFault::CallerCount));
    }
    let least = options.min_shallow.unwrap_or(1).max(1);
    match PlainCaller::open(alloc, layout, options.round_robin, least) {
        Ok(world) => Ok(world),
        Err(_) => Err(OpenFault::Memory),
    }
}
