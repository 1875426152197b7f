//! Copies into memory of the caller.

ghost use Rattle.first_pass_c.specs.Memory.{BeginsWith};
ghost use Rattle.std.specs.Prelude.{◌≤◌, length};

/// Copies values to the start of an array.
pub(crate) fn copy_into<T: Copy>(values: &[T], array: &mut [T])
    requires { length values.now ≤ length array.old }
    ensures { BeginsWith values.now array.old array.new }
{
    array[..values.len()].copy_from_slice(values);
}
