//! Tests of the machine and of traces: entries of tables, and memory that is refused.
//!
//! - `row_tests` (`rows`, read by `table`): what the program can't show, over both slot maps (`machines`, moved event by
//!   event: `by_hand`); `log_tests`: entries past sixteen bytes; `starved`: refused memory.
//! - `heap_tests`, `stream_tests`: heaps that are too small, and streams that fail.
//! - `history_tests` (`noting`), `starved_text_tests` (`note_texts`): notes beside histories, and short of memory.
//!
//! What the program can show, rows of data have: those of `test_words`.
#![tactic(auto)]

#[cfg(test)]
mod by_hand;
#[cfg(test)]
mod heap_tests;
#[cfg(test)]
mod history_tests;
#[cfg(test)]
mod log_tests;
#[cfg(test)]
mod machines;
#[cfg(test)]
mod note_texts;
#[cfg(test)]
mod noting;
#[cfg(test)]
mod row_tests;
#[cfg(test)]
mod rows;
#[cfg(test)]
mod starved;
#[cfg(test)]
mod starved_text_tests;
#[cfg(test)]
mod stream_tests;
#[cfg(test)]
mod table;
