//! Scripts: commands of callers, carried out one after another.
ghost use Rattle.std.specs.Prelude.{◌≤◌, length, IfOk, IfErr, All};
ghost use Rattle.tag_lines.specs.ScriptLines.{IsOrderOf};
ghost use Rattle.tag_script.specs.Script.{IsTold, IsRefusedSetup, Owed, dialect_of};
ghost use Rattle.tag_script.specs.Setups.{IsOpenFault};

use crate::ending::Ending;
use crate::fault::OpenFault;
use crate::options::ScriptOptions;
use crate::plain::run_alone;
use crate::refused::setup_refusal;
use crate::shared::run_shared;
use crate::text::{faulty_text, setup_text};
use std::alloc::{AllocError, Global};
use std::sync::Wait;
use tag_lines::{ListFault, MAX_INPUT, Order, orders};

/// What is said of a word by which no command goes.
const UNKNOWN_COMMAND: &str = "no such command with this many words, or not under --plain";

/// Returns the output of a script, and whether it is a refusal. All lines are read before the world is opened, and that
/// before any command: the output reports the first malformed line, or else a refused setup, or else has the answers of
/// the commands and the totals. `AllocError` if memory runs out.
pub fn answer_script<W: Wait>(
    rt: &W,
    alloc: Global,
    options: &ScriptOptions,
    script: &[u8],
) -> Result<(Vec<u8>, Ending), AllocError>
    requires { length script.now ≤ MAX_INPUT }
    ensures { IfOk result (λ (text, ending). Owed options.now script.now text.items ending) }
{
    let orders = match orders(alloc, options.dialect(), options.callers, script) {
        Ok(orders) => orders,
        Err(ListFault::Memory) => return Err(AllocError),
        Err(ListFault::Faulty(fault)) => {
            let text = faulty_text(alloc, fault)?;
            return Ok((text, Ending::Refused(fault.refusal(UNKNOWN_COMMAND))));
        }
    };
    match carry_out(rt, alloc, options, &orders) {
        Ok(text) => Ok((text, Ending::Done)),
        Err(OpenFault::Memory) => Err(AllocError),
        Err(OpenFault::Setup(fault)) => {
            let text = setup_text(alloc, fault)?;
            Ok((text, Ending::Refused(setup_refusal(fault))))
        }
    }
}

/// Runs the orders in the world that the options describe.
fn carry_out<W: Wait>(
    rt: &W,
    alloc: Global,
    options: &ScriptOptions,
    orders: &[Order],
) -> Result<Vec<u8>, OpenFault>
    requires known { All (IsOrderOf (dialect_of options.now.plain) options.now.callers) orders.now }
    requires few { length orders.now ≤ MAX_INPUT }
    ensures told { IfOk result (λ text. IsTold options.now.plain options.now orders.now text.items) }
    ensures fault { IfErr result (IsOpenFault (IsRefusedSetup options.now.plain options.now)) }
{
    if options.plain {
        run_alone(alloc, options, orders)
    } else {
        run_shared(rt, alloc, options, orders)
    }
}
