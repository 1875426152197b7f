//! Numbers of 32 bits, and appending of records.

ghost use Rattle.std.specs.Prelude.{◌≡◌, ◌≤◌, ◌<◌, ◌^◌, ◌++◌, ◌∷◌, [], OnOk};

use std::alloc::AllocError;

/// The fault: a number needs more than 32 bits.
#[derive(Clone, Copy, Debug)]
pub struct TooLong;

/// Returns a number that is at least as large as both numbers, and that fits into 32 bits if both do.
#[inline(always)]
pub(crate) fn bound_of_both(one: usize, other: usize) -> usize
    ensures one { one ≤ result }
    ensures other { other ≤ result }
    ensures short { one < 2 ^ 32 → other < 2 ^ 32 → result < 2 ^ 32 }
{
    one | other
}

/// Appends a record. Fails only if an allocation fails; then nothing changes.
#[inline(always)]
pub(crate) fn append_record<T: Copy>(records: &mut Vec<T>, one: T) -> Result<(), AllocError>
    ensures { OnOk result (records.new.items ≡ records.old.items ++ one ∷ []) }
{
    records.push(one)?;
    Ok(())
}
