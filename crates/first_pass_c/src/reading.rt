//! Reads a text, and writes its flat form into memory of the caller.

ghost use Rattle.first_pass_c.specs.declared.fault.Fault.TheVariants.{TooSmall};
ghost use Rattle.first_pass_c.specs.Memory.{memory};
ghost use Rattle.first_pass_c.specs.Parsed.{IsParsed, HasSides, form_of};
ghost use Rattle.first_pass_c.specs.Reading.{AreKnown, IsFormWritten, ReadLeaves, WriteLeaves, counts_of};
ghost use Rattle.std.specs.Prelude.{◌≡◌, IfErr, IfOk, IfSome, IsNone, OnOk};

use crate::copying::copy_into;
use crate::fault::Fault;
use crate::flat::nodes::fill_nodes;
use crate::flat::records::{FlatAttribute, FlatDefinition, FlatNode};
use crate::flat::side::{SideTables, side_tables};
use bitflags::Flags;
use first_pass_blocks::pass::run_first_pass;
use first_pass_items::item::Item;
use first_pass_items::option_set::Options;
use first_pass_names::items::Allocations;
use first_pass_tree::forest::Tree;
use std::alloc::Global;
use std::str;

// The longest text in bytes: each offset in it fits into 32 bits.
const LONGEST_TEXT: usize = 0xffff_ffff;

/// The length that each array needs for a flat form, and the number of definitions that are link definitions.
#[repr(C)]
#[derive(Clone, Copy)]
pub struct FlatCounts {
    pub nodes: usize,
    pub attributes: usize,
    /// The link definitions, then the labels of footnotes.
    pub definitions: usize,
    pub links: usize,
    pub string_bytes: usize,
}

/// A tree with its tables, and the other parts of their flat form.
#[derive(Drop)]
pub(crate) struct Parsed<'a> {
    pub tree: Tree<Item>,
    pub allocs: Allocations<'a>,
    pub side: SideTables,
}

impl<'a> Parsed<'a> {
    /// Returns the length that each array needs for the flat form.
    pub(crate) fn counts(&self) -> FlatCounts
        requires { HasSides self.now }
        ensures { result ≡ counts_of (form_of self.now) }
    {
        FlatCounts {
            nodes: self.tree.nodes().len(),
            attributes: self.side.attributes.len(),
            definitions: self.side.definitions.len(),
            links: self.side.links,
            string_bytes: self.side.names.len(),
        }
    }
}

/// Reads the blocks of a text under the options with these bits. Returns the tree, its tables, and the other parts of
/// their flat form.
pub(crate) fn read_text(alloc: Global, text: &[u8], bits: u32) -> Result<Parsed<'_>, Fault>
    ensures ok { IfOk result (λ parsed. IsParsed text.now bits parsed) }
    ensures fault { IfErr result (λ fault. ReadLeaves fault text.now bits) }
{
    let Some(options) = options_of(bits) else {
        return Err(Fault::BadOptions);
    };
    let Ok(text) = str::from_utf8(text) else {
        return Err(Fault::NotUtf8);
    };
    if text.len() > LONGEST_TEXT {
        return Err(Fault::TooLong);
    }
    let (tree, allocs) = run_first_pass(alloc, text, options)?;
    let side = side_tables(alloc, tree.nodes(), &allocs)?;
    Ok(Parsed { tree, allocs, side })
}

// The options with these bits, or `None` if a bit belongs to no option.
fn options_of(bits: u32) -> Option<Options>
    ensures some { IfSome result (λ options. options.0 ≡ bits) }
    ensures known { IfSome result (λ options. AreKnown bits) }
    ensures none { IsNone result → AreKnown bits → ⊥ }
{
    Options::from_bits(bits)
}

/// Writes a flat form to the starts of four arrays. Fails with `TooSmall`, and then writes nothing, or with `TooLong`.
pub(crate) fn write_into(
    parsed: &Parsed<'_>,
    nodes: &mut [FlatNode],
    attributes: &mut [FlatAttribute],
    definitions: &mut [FlatDefinition],
    names: &mut [u8],
) -> Result<(), Fault>
    requires { HasSides parsed.now }
    ensures ok { OnOk result (IsFormWritten (form_of parsed.now)
        (memory nodes.old attributes.old definitions.old names.old)
        (memory nodes.new attributes.new definitions.new names.new)) }
    ensures fault { IfErr result (λ fault. WriteLeaves fault (form_of parsed.now)
        (memory nodes.old attributes.old definitions.old names.old)) }
    ensures unchanged { IfErr result (λ fault. fault ≡ TooSmall →
        memory nodes.new attributes.new definitions.new names.new
        ≡ memory nodes.old attributes.old definitions.old names.old) }
{
    let needed = parsed.counts();
    if nodes.len() < needed.nodes
        || attributes.len() < needed.attributes
        || definitions.len() < needed.definitions
        || names.len() < needed.string_bytes
    {
        return Err(Fault::TooSmall);
    }
    let tree = parsed.tree.nodes();
    fill_nodes(tree, &parsed.allocs, &parsed.side, &mut nodes[..tree.len()])?;
    copy_into(parsed.side.attributes.as_slice(), attributes);
    copy_into(parsed.side.definitions.as_slice(), definitions);
    copy_into(parsed.side.names.as_slice(), names);
    Ok(())
}
