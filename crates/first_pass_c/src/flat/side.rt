//! The parts of the flat form other than its nodes.

ghost use Rattle.first_pass_c.specs.Side.{AreSideTables};
ghost use Rattle.first_pass_names.specs.TableEntries.{names_of, tables_of};
ghost use Rattle.std.specs.Prelude.{IfOk};

use crate::flat::attributes::NamedAttributes;
use crate::flat::definitions::NamedDefinitions;
use crate::flat::names::append_names;
use crate::flat::records::{FlatAttribute, FlatDefinition};
use first_pass_items::item::Item;
use first_pass_names::items::Allocations;
use std::alloc::{AllocError, Global};

/// The attributes of headings, the definitions, and the bytes that these and the nodes name.
#[derive(Drop)]
pub struct SideTables {
    /// The attributes of all headings, in reading order.
    pub attributes: Vec<FlatAttribute>,
    /// The link definitions, then the labels of footnotes, both in the order of their tables.
    pub definitions: Vec<FlatDefinition>,
    /// How many of the definitions are link definitions.
    pub links: usize,
    /// The bytes that the nodes name, then those of the attributes, then those of the definitions.
    pub names: Vec<u8>,
    /// The number of bytes that the nodes name.
    pub node_names: usize,
}

/// Returns the flat form of a tree and its tables, except for the records of nodes. Fails only if an allocation fails.
pub fn side_tables(
    alloc: Global,
    nodes: &[(usize, Item)],
    allocs: &Allocations<'_>,
) -> Result<SideTables, AllocError>
    ensures { IfOk result (λ side. AreSideTables side (names_of allocs.now) nodes.now (tables_of allocs.now)) }
{
    let mut names = Vec::new(alloc);
    append_names(&mut names, nodes, allocs)?;
    let node_names = names.len();
    let mut named = NamedAttributes {
        attributes: Vec::new(alloc),
        names,
    };
    named.append_headings(nodes, allocs)?;
    let NamedAttributes { attributes, names } = named;
    let mut defined = NamedDefinitions {
        definitions: Vec::new(alloc),
        names,
    };
    defined.append_links(allocs.refdefs())?;
    let links = defined.definitions.len();
    defined.append_footnotes(allocs.footdefs())?;
    let NamedDefinitions { definitions, names } = defined;
    Ok(SideTables {
        attributes,
        definitions,
        links,
        names,
        node_names,
    })
}
