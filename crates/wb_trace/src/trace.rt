//! Reading a trace.
ghost use Rattle.std.specs.Prelude.{◌≡◌, ◌<◌, ◌≤◌, IfOk, IfSome, IsErrOf, length};
ghost use Rattle.wb_trace.specs.helpers.TakenFromReader.{HasTaken};

use std::alloc::Global;
use std::io::{ErrorKind, Read};
use thiserror::Error;

/// The bytes that a trace may have.
const TRACE_LIMIT: usize = 1_048_576;

/// The reads after which a trace is given up.
const READ_LIMIT: u32 = 2_000_000;

/// Why a trace was not read.
#[derive(Clone, Copy, Debug, PartialEq, Eq, Error)]
pub enum TraceFault {
    #[error("trace too long")]
    TooLong,
    #[error("read fault")]
    ReadFault,
    #[error("want of memory")]
    Memory,
}

/// The bytes of a trace, all that the reader has left. A read that was interrupted is tried again.
pub fn read_trace<R: Read>(alloc: Global, reader: &mut R) -> Result<Vec<u8>, TraceFault>
    ensures whole { IfOk result (λ trace. IfSome (R.remaining reader.old) (λ unread. trace.items
        ≡ unread)) }
    ensures within { IfOk result (λ trace. length trace.items ≤ 1_048_576) }
    ensures too_long { IsErrOf result TraceFault.TooLong
        → IfSome (R.remaining reader.old) (λ unread. 1_048_576 < length unread) }
    ensures read_fault { IsErrOf result TraceFault.ReadFault
        → HasTaken 1_048_576 (R.remaining reader.old) (R.remaining reader.new) }
{
    let mut trace = Vec::new(alloc);
    let mut piece = [0u8; 4096];
    'reads: for _ in 0..READ_LIMIT {
        match reader.read(&mut piece) {
            Ok(0) => return Ok(trace),
            Ok(n) => {
                if trace.extend_from_slice(&piece[..n]).is_err() {
                    return Err(TraceFault::Memory);
                }
                if TRACE_LIMIT < trace.len() {
                    return Err(TraceFault::TooLong);
                }
            }
            Err(error) => {
                if error.kind() != ErrorKind::Interrupted {
                    return Err(TraceFault::ReadFault);
                }
            }
        }
    }
    Err(TraceFault::ReadFault)
}
