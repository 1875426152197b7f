//! Writing a text, and lines in pieces.

ghost use Rattle.first_pass_host.specs.declared.fault.RunFault.TheVariants.{WriteFailed};
ghost use Rattle.first_pass_host.specs.Held.{AreItemLines, IsPartlyWritten};
ghost use Rattle.first_pass_host.specs.Streams.{AppendsFront, WritesText, stream_between};
ghost use Rattle.std.specs.Io.KnownBytes.{Appends};
ghost use Rattle.std.specs.Iterator.{IsFinite};
ghost use Rattle.std.specs.Prelude.{◌≡◌, ◌<◌, ℕ, List, [], length, IfErr, OnErr, OnOk};

use crate::fault::RunFault;
use std::alloc::{AllocError, Global};
use std::io::Write;

// Held bytes are written when there are at least this many.
const PIECE: usize = 8192;

/// Writes all of `bytes`, in as many writes as necessary. Returns `WriteFailed` if a write fails or writes no byte; a
/// beginning of the bytes was written then.
pub fn write_whole<W: Write>(output: &mut W, bytes: &[u8]) -> Result<(), RunFault>
    ensures ok { OnOk result (Appends (W.contents output.old) (W.contents output.new) bytes.now) }
    ensures front { OnErr result (AppendsFront (W.contents output.old) (W.contents output.new) bytes.now) }
    ensures fault { IfErr result (λ fault. fault ≡ WriteFailed) }
{
    let mut rest = bytes;
    while !rest.is_empty() {
        match output.write(rest) {
            Ok(0) => return Err(RunFault::WriteFailed),
            Ok(count) => rest = &rest[count..],
            Err(_) => return Err(RunFault::WriteFailed),
        }
    }
    Ok(())
}

/// Writes the bytes in `held` and clears it, if it has at least 8,192 bytes. On a fault, the fault and the written
/// bytes are those of `write_whole`. To write lines in pieces, append each to `held` and then call this function;
/// after the last line, write the rest with `write_whole`.
pub fn write_piece<W: Write>(output: &mut W, held: &mut Vec<u8>) -> Result<(), RunFault>
    ensures ok { OnOk result (IsPartlyWritten held.old.items held.new.items []
        (stream_between (W.contents output.old) (W.contents output.new))) }
    ensures less { OnOk result (length held.new.items < 8192) }
    ensures front { OnErr result (AppendsFront (W.contents output.old) (W.contents output.new) held.old.items) }
    ensures fault { IfErr result (λ fault. fault ≡ WriteFailed) }
{
    if PIECE <= held.len() {
        write_whole(output, held.as_slice())?;
        held.clear();
    }
    Ok(())
}

/// Writes a line for each item of an iterator, in order and in pieces. `append` appends the line of an item to the
/// held bytes. Returns `WriteFailed` if a write fails, and `OutOfMemory` if an allocation fails; a beginning of the
/// lines may be written then. The contract holds for every way to read items as lines.
pub fn write_each<I, F, W>(
    alloc: Global,
    items: I,
    append: F,
    output: &mut W,
) -> Result<(), RunFault>
where
    I: Iterator + Drop,
    F: Fn(&mut Vec<u8>, I::Item) -> Result<(), AllocError>,
    W: Write,
    requires can { I.can_next items }
    requires ends { IsFinite (I.remaining items) }
    requires callable { F.IsAlwaysCallable append }
    ensures { (line : I.Item → List ℕ) (lines : I → List ℕ) → AreItemLines I.next_gives (F.post append) line lines
        → WritesText (lines items) (stream_between (W.contents output.old) (W.contents output.new)) result }
{
    let mut held = Vec::new(alloc);
    for item in items {
        append(&mut held, item)?;
        write_piece(output, &mut held)?;
    }
    write_whole(output, held.as_slice())
}
