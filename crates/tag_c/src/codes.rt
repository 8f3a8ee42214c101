//! Turns the answers of `tag_pool` into the numbers that C sees. An error becomes its negative status of tags.h.
ghost use Rattle.std.specs.Prelude.{◌≡◌, ◌≤◌, ◌<ℤ◌, IfOk, IfSome, pos, min};
ghost use Rattle.tag_layout.specs.declared.layout.TheConstants.{MAX_DEPTH};
ghost use Rattle.tag_c.specs.Left.{answer_of, left_of, left_of_many};
ghost use Rattle.tag_c.specs.Codes.{IsRefusal, code_of_get, code_of_batch, code_of_done, code_of_many};

use crate::status::{Status, fault_code};
use crate::telling::TOLD;
use tag_pool::{Found, MAX_DEPTH, TagFault};

/// Returns the answer of a get, and how many tags the get left free, 0 if it was refused.
#[inline]
pub(crate) fn answer_and_left<T>(
    found: Result<Found<T>, TagFault>,
) -> (Result<Option<T>, TagFault>, u64)
    ensures answer { result.0 ≡ answer_of found }
    ensures left { result.1 ≡ left_of found }
{
    match found {
        Ok(found) => (Ok(found.answer), found.left),
        Err(fault) => (Err(fault), 0),
    }
}

/// Returns the tag, `NoTag` if none was found, or the status of the error.
#[inline]
pub(crate) fn get_code(answer: Result<Option<u32>, TagFault>) -> i32
    requires { IfOk answer (λ found. IfSome found (λ tag. tag ≤ MAX_DEPTH)) }
    ensures code { result ≡ code_of_get answer }
    ensures below { result <ℤ TOLD }
{
    match answer {
        Ok(Some(tag)) => tag as i32,
        Ok(None) => Status::NoTag.code(),
        Err(fault) => fault_code(fault),
    }
}

/// Returns the first tag of the run, `NoTag` if there is none, or the status of the error.
#[inline]
pub(crate) fn batch_code(answer: Result<Option<(u32, u64)>, TagFault>) -> i32
    requires { IfOk answer (λ found. IfSome found (λ run. run.0 ≤ MAX_DEPTH)) }
    ensures code { result ≡ code_of_batch answer }
    ensures below { result <ℤ TOLD }
{
    match answer {
        Ok(Some((first, _))) => first as i32,
        Ok(None) => Status::NoTag.code(),
        Err(fault) => fault_code(fault),
    }
}

/// Returns 0 if a get of several tags took all, `NoTag` if it took none, or the status of the error; and how many tags the
/// get left free, 0 if it was refused.
#[inline]
pub(crate) fn many_code_and_left(answer: Result<(bool, u64), TagFault>) -> (i32, u64)
    ensures code { result.0 ≡ code_of_many answer }
    ensures below { result.0 <ℤ TOLD }
    ensures left { result.1 ≡ left_of_many answer }
{
    match answer {
        Ok((all, left)) => (if all { 0 } else { Status::NoTag.code() }, left),
        Err(fault) => (fault_code(fault), 0),
    }
}

/// Returns the count. The bound serves the proof alone: no count of the tags is larger.
#[inline]
pub(crate) fn number_code(count: u32) -> i32
    ensures { result ≡ pos (min count MAX_DEPTH) }
{
    count.min(MAX_DEPTH) as i32
}

/// Returns 0, or the status of the error.
#[inline]
pub(crate) fn done_code<T: Copy>(answer: Result<T, TagFault>) -> i32
    ensures { result ≡ code_of_done answer }
{
    match answer {
        Ok(_) => 0,
        Err(fault) => fault_code(fault),
    }
}

/// Writes the value and returns 0, or returns the status of the error and leaves `value` unchanged.
#[inline]
pub(crate) fn value_code(answer: Result<u64, TagFault>, value: &mut u64) -> i32
    ensures code { result ≡ code_of_done answer }
    ensures value { IfOk answer (λ found. value.new ≡ found) }
    ensures kept { IsRefusal result → value.new ≡ value.old }
{
    match answer {
        Ok(found) => {
            *value = found;
            0
        }
        Err(fault) => fault_code(fault),
    }
}
