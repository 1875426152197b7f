//! The whole input.

ghost use Rattle.first_pass_host.specs.Streams.{ReadsWhole, IsReadFault};
ghost use Rattle.std.specs.Prelude.{IfOk, IfErr};

use crate::fault::RunFault;
use std::alloc::Global;
use std::io::Read;

// The greatest number of bytes of a read.
const PIECE: usize = 8192;

/// Returns all bytes of the input, up to the first read that returns none. Returns `ReadFailed` if a read fails, and
/// `OutOfMemory` if an allocation fails; nothing more is read then.
pub fn read_whole<R: Read>(alloc: Global, input: &mut R) -> Result<Vec<u8>, RunFault>
    ensures ok { IfOk result (λ bytes. ReadsWhole (R.remaining input.old) (R.remaining input.new) bytes.items) }
    ensures fault { IfErr result IsReadFault }
{
    let mut bytes = Vec::new(alloc);
    let mut piece = [0; PIECE];
    loop {
        let count = match input.read(&mut piece) {
            Ok(count) => count,
            Err(_) => return Err(RunFault::ReadFailed),
        };
        if count == 0 {
            return Ok(bytes);
        }
        bytes.extend_from_slice(&piece[..count])?;
    }
}
