//! The printed form of a result.

use crate::pictures::append_shown;
use itoa::Buffer;
use std::alloc::{AllocError, Global};

/// The words of a result so far, separated by spaces.
#[derive(Drop)]
pub struct Answer {
    words: String,
}

impl Answer {
    /// Returns a result without words.
    pub fn new(alloc: Global) -> Answer {
        Answer {
            words: String::new(alloc),
        }
    }

    /// Returns the words so far.
    pub fn as_str(&self) -> &str {
        self.words.as_str()
    }

    /// Appends a word as it is.
    pub fn word(&mut self, word: &str) -> Result<(), AllocError> {
        if !self.words.is_empty() {
            self.words.push(' ')?;
        }
        self.words.push_str(word)
    }

    /// Appends a number in decimal digits.
    pub fn number(&mut self, number: usize) -> Result<(), AllocError> {
        let mut digits = Buffer::new();
        self.word(digits.format(number))
    }

    /// Appends `true` or `false`.
    pub fn flag(&mut self, flag: bool) -> Result<(), AllocError> {
        self.word(if flag { "true" } else { "false" })
    }

    /// Appends a byte as its character.
    pub fn byte(&mut self, byte: u8) -> Result<(), AllocError> {
        self.word("")?;
        self.words.push(char::from(byte))
    }

    /// Appends a text between `‹` and `›`.
    pub fn text(&mut self, text: &str) -> Result<(), AllocError> {
        self.word("‹")?;
        append_shown(&mut self.words, text)?;
        self.words.push('›')
    }

    /// Appends the word `none`.
    pub fn none(&mut self) -> Result<(), AllocError> {
        self.word("none")
    }

    /// Appends a number, or `none`.
    pub fn length(&mut self, found: Option<usize>) -> Result<(), AllocError> {
        match found {
            Some(number) => self.number(number),
            None => self.none(),
        }
    }

    /// Appends a byte, or `none`.
    pub fn maybe_byte(&mut self, found: Option<u8>) -> Result<(), AllocError> {
        match found {
            Some(byte) => self.byte(byte),
            None => self.none(),
        }
    }
    /// Appends `true`, `false` or `none`.
    pub fn maybe_flag(&mut self, found: Option<bool>) -> Result<(), AllocError> {
        match found {
            Some(flag) => self.flag(flag),
            None => self.none(),
        }
    }
}
