//! Numbers among the words of the command line.

/// The number that a word spells, or another where there is none.
pub(crate) fn number_or(words: &[String], at: usize, other: u32) -> u32 {
    match words.get(at) {
        Some(word) => word.as_str().parse().unwrap_or(other),
        None => other,
    }
}
