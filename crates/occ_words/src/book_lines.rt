//! The lines of a well-formed book at which its rows, reads and marks stand, counted from 1.

use crate::line_walk::token_at;
use occ_text::separated_parts::Parts;
use occ_text::tokens::{is_word, number};

/// The lines of a book that are still to come.
#[derive(Drop)]
pub struct Lines<'t> {
    rest: Parts<'t>,
    number: u64,
}

impl<'t> Lines<'t> {
    /// All lines.
    pub fn new(text: &'t [u8]) -> Lines<'t> {
        Lines {
            rest: Parts::new(text, b'\n'),
            number: 0,
        }
    }

    // Goes over the next line, which is empty behind the last one.
    fn next_line(&mut self) -> &'t [u8] {
        self.number = self.number.saturating_add(1);
        self.rest.take_part().unwrap_or(b"")
    }

    // Goes over lines up to the next one that begins with one of two words, and answers its number.
    fn next_with(&mut self, word: &str, other: &str) -> u64 {
        for _ in 0..u64::MAX {
            let line = self.next_line();
            let head = token_at(line, 0);
            if line.is_empty() || is_word(head, word) || is_word(head, other) {
                break;
            }
        }
        self.number
    }

    /// Goes over the lines up to the next row of the log, and answers its number.
    pub fn next_row(&mut self) -> u64 {
        self.next_with("row", "row")
    }

    /// Goes over the lines up to the next read of a row, and answers its number.
    pub fn next_read(&mut self) -> u64 {
        self.next_with("one", "span")
    }
}

/// The line of the row at an index.
pub fn line_of_row(text: &[u8], row: usize) -> u64 {
    let mut lines = Lines::new(text);
    for _ in 0..row {
        let _before = lines.next_row();
    }
    lines.next_row()
}

/// The line of a read of the row at an index.
pub fn line_of_read(text: &[u8], row: usize, read: usize) -> u64 {
    let mut lines = Lines::new(text);
    for _ in 0..row.saturating_add(1) {
        let _before = lines.next_row();
    }
    for _ in 0..read {
        let _before = lines.next_read();
    }
    lines.next_read()
}

/// The line of the closing mark of a session.
pub fn line_of_mark(text: &[u8], session: usize) -> u64 {
    let mut lines = Lines::new(text);
    for _ in 0..u64::MAX {
        let line = lines.next_line();
        let named = number(token_at(line, 1), u64::MAX);
        if line.is_empty()
            || (is_word(token_at(line, 0), "mark") && named == Some(session as u64))
        {
            break;
        }
    }
    lines.number
}
