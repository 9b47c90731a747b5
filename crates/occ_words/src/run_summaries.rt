//! What is told of a run at its end.

use crate::phrases::write_counted;
use occ_text::separated_parts::Parts;
use serde_json::{Map, Value, put};
use std::alloc::{AllocError, Global};

/// How the transactions of a run ended, each try for itself.
#[derive(Clone, Copy, Debug, PartialEq, Eq)]
pub struct Ends {
    /// Committed.
    pub committed: u64,
    /// Backed up for a conflict.
    pub conflict: u64,
    /// Backed up as too old.
    pub too_old: u64,
}

/// How the rows of the log of a printed book ended.
pub fn ends_of(book: &[u8]) -> Ends {
    let mut ends = Ends {
        committed: 0,
        conflict: 0,
        too_old: 0,
    };
    let mut lines = Parts::new(book, b'\n');
    for _ in 0..book.len() {
        let Some(line) = lines.take_part() else {
            break;
        };
        count(&mut ends, line);
    }
    ends
}

// Counts a line of a book, where it is a row of the log.
fn count(ends: &mut Ends, line: &[u8]) {
    if !line.starts_with(b"row ") {
        return;
    }
    if line.ends_with(b" conflict") {
        ends.conflict = ends.conflict.saturating_add(1);
    } else if line.ends_with(b" tooold") {
        ends.too_old = ends.too_old.saturating_add(1);
    } else {
        ends.committed = ends.committed.saturating_add(1);
    }
}

/// What a run came to.
#[derive(Clone, Copy, Debug)]
pub struct Summary {
    /// How long its threads ran, in microseconds.
    pub took: u64,
    /// How its transactions ended.
    pub ends: Ends,
    /// How many tries followed a back-up.
    pub retried: u64,
    /// How many transactions were handed in to run alone.
    pub alone: u64,
    /// The most memory that the program had, in 1,024 bytes, where the system tells it.
    pub memory: Option<u64>,
    /// Whether its audit holds.
    pub holds: bool,
}

/// A number that is told of a run: its name in an object of JSON, and what stands before and behind it in a text.
#[derive(Clone, Copy, Debug)]
struct Line {
    name: &'static str,
    words: &'static str,
    number: Option<u64>,
    unit: &'static str,
}

impl Summary {
    // Commits a second, where the run took a millisecond.
    fn rate(&self) -> Option<u64> {
        if self.took < 1_000 {
            return None;
        }
        Some(self.ends.committed.saturating_mul(1_000_000) / self.took)
    }

    // Its numbers, in the order in which they are told.
    fn lines(&self) -> [Line; 8] {
        [
            Line {
                name: "milliseconds",
                words: "time       ",
                number: Some(self.took / 1_000),
                unit: " ms",
            },
            Line {
                name: "committed",
                words: "committed  ",
                number: Some(self.ends.committed),
                unit: "",
            },
            Line {
                name: "commits_a_second",
                words: "a second   ",
                number: self.rate(),
                unit: "",
            },
            Line {
                name: "backed_up_conflict",
                words: "backed up  ",
                number: Some(self.ends.conflict),
                unit: " for a conflict",
            },
            Line {
                name: "backed_up_tooold",
                words: "backed up  ",
                number: Some(self.ends.too_old),
                unit: " as too old",
            },
            Line {
                name: "tried_again",
                words: "tried      ",
                number: Some(self.retried),
                unit: " again",
            },
            Line {
                name: "run_alone",
                words: "run alone  ",
                number: Some(self.alone),
                unit: "",
            },
            Line {
                name: "memory_kilobytes",
                words: "memory     ",
                number: self.memory,
                unit: " kB at most",
            },
        ]
    }

    /// The lines of a text. What isn't known is left out.
    pub fn text(&self, alloc: Global) -> Result<String, AllocError> {
        let mut text = String::new(alloc);
        for line in self.lines() {
            if let Some(number) = line.number {
                write_counted(&mut text, line.words, number)?;
                text.push_str(line.unit)?;
                text.push('\n')?;
            }
        }
        text.push_str(if self.holds {
            "audit      yes\n"
        } else {
            "audit      no\n"
        })?;
        Ok(text)
    }

    /// One object of JSON, on one line. What isn't known is left out.
    pub fn json(&self, alloc: Global) -> Result<String, AllocError> {
        let mut members = Map::new(alloc);
        for line in self.lines() {
            if let Some(number) = line.number {
                put(&mut members, alloc, line.name, Value::from(number))?;
            }
        }
        put(&mut members, alloc, "audit", Value::from(self.holds))?;
        let mut text = Value::Object(members).to_string(alloc)?;
        text.push('\n')?;
        Ok(text)
    }
}
