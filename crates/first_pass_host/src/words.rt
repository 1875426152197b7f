//! The words after a program's name.

use crate::fault::RunFault;
use std::env;
use std::io::ErrorKind;

/// Returns the words after the program's name. Returns `BadOptions` if one is not UTF-8, and `OutOfMemory` if an
/// allocation fails.
pub fn words_of<R: env::Env + AllocGlobal>(rt: &R) -> Result<Vec<String>, RunFault> {
    let args = match env::args(rt) {
        Ok(args) => args,
        Err(error) if error.kind() == ErrorKind::InvalidData => return Err(RunFault::BadOptions),
        Err(_) => return Err(RunFault::OutOfMemory),
    };
    Ok(args.skip(1).collect(rt.alloc())?)
}
