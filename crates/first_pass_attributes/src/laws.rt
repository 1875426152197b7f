//! Laws of the definitions.

ghost use Rattle.first_pass_attributes.specs.AttributeBlocks.{Braces, IsAttributeBlock, attribute_block};
ghost use Rattle.std.specs.Prelude.{◌≡◌, Some};

/// `attribute_block` returns the only attribute block of a heading, and `None` only if there is none. Nothing between
/// the braces of such a block breaks it, and only spaces, tabs and line endings follow it (this project).
pub fn law_of_attribute_blocks(heading: &[u8])
    ensures found { (block : Braces) → attribute_block heading.now ≡ Some block → IsAttributeBlock heading.now block }
    ensures only { (block : Braces) → IsAttributeBlock heading.now block → attribute_block heading.now ≡ Some block }
{}
