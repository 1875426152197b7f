//! The arguments of a call other than its text.

// The greatest number of arguments of a call.
const MOST: usize = 5;

/// The arguments of a call, and their number.
#[derive(Drop)]
pub struct Given {
    values: [usize; MOST],
    count: usize,
}

impl Given {
    /// Returns the argument with this index, or 0 if there are fewer.
    pub fn number(&self, place: usize) -> usize {
        self.values.get(place).copied().unwrap_or(0)
    }

    /// Returns the argument with this index as a byte, or 0 if it is not one.
    pub fn byte(&self, place: usize) -> u8 {
        u8::try_from(self.number(place)).unwrap_or(0)
    }

    /// Returns whether the argument with this index is not 0.
    pub fn flag(&self, place: usize) -> bool {
        self.number(place) != 0
    }

    /// Returns the number of arguments.
    pub fn count(&self) -> usize {
        self.count
    }
}

/// Reads arguments that are separated by spaces.
pub fn read_given(words: &str) -> Given {
    let mut given = Given {
        values: [0; MOST],
        count: 0,
    };
    for word in words.split(' ') {
        if !word.is_empty() && given.count < MOST {
            given.values[given.count] = value_of(word);
            given.count += 1;
        }
    }
    given
}

// The value of a word: a number, a flag, or the first byte of a character.
fn value_of(word: &str) -> usize {
    match word {
        "true" => 1,
        "false" => 0,
        _ => match word.parse::<usize>() {
            Ok(number) => number,
            Err(_) => word.as_bytes().first().copied().unwrap_or(0) as usize,
        },
    }
}
