//! Control characters in a table: each is written as its picture.
//!
//! The characters U+0000 to U+0020 have the pictures U+2400 to U+2420: `␉` is a tab, `␊` a newline, `␍` a carriage
//! return, `␋` a vertical tab, `␌` a form feed. `␠` is a space; it is used only at the end of a line or of a text. No
//! text of a table contains a picture that means itself.

use std::alloc::{AllocError, Global};

/// Returns the text for its form in a table.
pub fn read_shown(alloc: Global, shown: &str) -> Result<String, AllocError> {
    let mut text = String::new(alloc);
    for character in shown.chars() {
        text.push(after_picture(character))?;
    }
    Ok(text)
}

// The character of a picture; any other character is unchanged.
fn after_picture(character: char) -> char {
    match character {
        '\u{2400}'..='\u{2420}' => char::from_u32(character as u32 - 0x2400).unwrap_or(character),
        _ => character,
    }
}

/// Appends a text with pictures for its control characters.
pub fn append_shown(shown: &mut String, text: &str) -> Result<(), AllocError> {
    for character in text.chars() {
        shown.push(picture_of(character))?;
    }
    Ok(())
}

// The picture of a control character; any other character is unchanged.
fn picture_of(character: char) -> char {
    match character {
        '\0'..='\u{1f}' => char::from_u32(character as u32 + 0x2400).unwrap_or(character),
        _ => character,
    }
}
