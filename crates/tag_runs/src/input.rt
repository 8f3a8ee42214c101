//! Reading the whole input.
ghost use Rattle.std.specs.Prelude.{◌≡◌, ◌≢◌, ◌≤◌, ◌||◌, vec_len, IfOk, IfErr, IfSome};
ghost use Rattle.tag_runs.specs.Input.{ReadsAll, StopsReading, is_read_fault};

use crate::fault::RunFault;
use crate::source::Source;
use std::alloc::Global;
use tag_lines::MAX_INPUT;

/// Bytes requested from the reader per call.
const PIECE: usize = 16_384;

/// Reads to the end of the input. Any error of the reader is `Read`, an interruption too: there is no retry.
pub(crate) fn read_whole<R: Source>(alloc: Global, reader: &mut R) -> Result<Vec<u8>, RunFault>
    ensures whole { IfOk result (λ input. IfSome (R.remaining reader.old) (λ bytes. input.items ≡ bytes)) }
    ensures short { IfOk result (λ input. vec_len input ≤ MAX_INPUT) }
    ensures read { IfOk result (λ input. ReadsAll (R.remaining reader.old) (R.remaining reader.new) input.items) }
    ensures stopped { IfErr result (λ fault. StopsReading fault (R.remaining reader.old) (R.remaining reader.new)) }
    ensures failed { R.has_failed reader.new ≡ (is_read_fault result || R.has_failed reader.old) }
    ensures not_write { IfErr result (λ fault. fault ≢ RunFault.Write) }
{
    let mut input = Vec::new(alloc);
    let mut piece = [0; PIECE];
    loop {
        let Ok(count) = reader.fetch(&mut piece) else {
            return Err(RunFault::Read);
        };
        if count == 0 {
            return Ok(input);
        }
        if count > MAX_INPUT - input.len() {
            return Err(RunFault::TooLong);
        }
        if input.extend_from_slice(&piece[..count]).is_err() {
            return Err(RunFault::Memory);
        }
    }
}
