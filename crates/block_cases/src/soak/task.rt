//! The words after the program's name.

use first_pass_host::fault::RunFault;
use first_pass_host::option_word::begins_with_plus;

// The default number of seconds.
const SECONDS: u64 = 60;

/// The number of seconds for which texts are read, and the seed, if one is given.
#[derive(Clone, Copy)]
pub struct Task {
    pub seconds: u64,
    pub seed: Option<u64>,
}

/// Returns the task that the words request: `soak [SECONDS [SEED]]`, each number one or more ASCII digits, or `None`
/// without words. Returns `BadOptions` for other words.
pub fn parse_words(words: &[String]) -> Result<Option<Task>, RunFault> {
    let [name, numbers @ ..] = words else {
        return Ok(None);
    };
    if name.as_str() != "soak" {
        return Err(RunFault::BadOptions);
    }
    match parse_task(numbers) {
        Some(task) => Ok(Some(task)),
        None => Err(RunFault::BadOptions),
    }
}

// The task that the words after `soak` request.
fn parse_task(words: &[String]) -> Option<Task> {
    let (seconds, seed) = match words {
        [] => (SECONDS, None),
        [seconds] => (number_of(seconds.as_str())?, None),
        [seconds, seed] => (
            number_of(seconds.as_str())?,
            Some(number_of(seed.as_str())?),
        ),
        _ => return None,
    };
    Some(Task { seconds, seed })
}

// The number that a word represents.
fn number_of(word: &str) -> Option<u64> {
    if begins_with_plus(word) {
        return None;
    }
    word.parse::<u64>().ok()
}
