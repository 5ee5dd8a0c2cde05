//! The numbers of a row.
use trace_text::number::read_number;

/// The numbers of a text's words, in order; a word that spells none is 0, and so is each behind the last.
pub fn numbers_of(text: &str) -> [u64; 6] {
    let mut numbers = [0; 6];
    for (at, word) in text.split(' ').enumerate() {
        if at < 6 {
            numbers[at] = read_number(word.as_bytes()).unwrap_or(0);
        }
    }
    numbers
}
