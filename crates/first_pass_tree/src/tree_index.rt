//! The index of a node.

/// The index of a node in reading order; the root's is 0. The index of an open node, or of a node before it, belongs to
/// the same node as long as that open node stays open. Any other index is valid until the next call that removes, cuts
/// or wraps nodes.
#[derive(Clone, Copy, PartialEq, Eq)]
pub struct TreeIndex(pub usize);
