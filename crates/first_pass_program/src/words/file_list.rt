//! The names in a list of files.

ghost use Rattle.first_pass_program.specs.FileLists.{names_in, separator};
ghost use Rattle.std.specs.Prelude.{◌≡◌, ◌++◌, map, OnOk};

use std::alloc::AllocError;

/// Appends the names that a list has: one a line, or one before each NUL if the list holds a NUL. Empty names are left
/// out. A name has any other bytes.
pub fn append_names<'a>(list: &'a [u8], names: &mut Vec<&'a [u8]>) -> Result<(), AllocError>
    ensures { OnOk result (map (λ name. name.now) names.new.items
        ≡ map (λ name. name.now) names.old.items ++ names_in list.now) }
{
    let end = separator(list);
    for name in list.split(|byte| *byte == end) {
        if !name.is_empty() {
            names.push(name)?;
        }
    }
    Ok(())
}

// The byte that ends each name of a list.
fn separator(list: &[u8]) -> u8
    ensures { result ≡ separator list.now }
{
    if list.contains(&0) { 0 } else { b'\n' }
}
