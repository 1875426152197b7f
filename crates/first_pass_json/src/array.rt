//! An array of values.

ghost use Rattle.first_pass_json.specs.JsonValues.{after_commas, array, with_commas};
ghost use Rattle.std.specs.Prelude.{◌≡◌, ◌++◌, ℕ, List, OnOk};

use std::alloc::AllocError;

/// A value in an array.
pub trait ArrayValue {
    // Its JSON form.
    ghost form: { Self → List ℕ };

    /// Appends its JSON form. Fails only if an allocation fails.
    fn append_to(&self, line: &mut Vec<u8>) -> Result<(), AllocError>
        ensures { OnOk result (line.new.items ≡ line.old.items ++ form self.now) };
}

/// Appends values as an array.
pub fn append_array<V: ArrayValue>(line: &mut Vec<u8>, values: &[V]) -> Result<(), AllocError>
    ensures { OnOk result (line.new.items ≡ line.old.items ++ array V.form values.now) }
{
    line.push(b'[')?;
    append_values(line, values)?;
    line.push(b']')?;
    Ok(())
}

// Appends values, separated by commas.
fn append_values<V: ArrayValue>(line: &mut Vec<u8>, values: &[V]) -> Result<(), AllocError>
    ensures { OnOk result (line.new.items ≡ line.old.items ++ with_commas V.form values.now) }
{
    match values.split_first() {
        None => Ok(()),
        Some((first, others)) => {
            first.append_to(line)?;
            append_further(line, others)
        }
    }
}

// Appends values, each after a comma.
#[tactic(auto, unfolding(crate::specs::JsonValues::after_commas))]
fn append_further<V: ArrayValue>(line: &mut Vec<u8>, values: &[V]) -> Result<(), AllocError>
    ensures { OnOk result (line.new.items ≡ line.old.items ++ after_commas V.form values.now) }
{
    for value in values {
        line.push(b',')?;
        value.append_to(line)?;
    }
    Ok(())
}
