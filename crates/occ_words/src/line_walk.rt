//! A walk over the well-formed lines of a text, which tells what lines may stand next.

use crate::line_forms::{FIRST, Forms, OF_SCHEDULE, OF_WORKLOAD, brought, form_of};
use occ_text::separated_parts::Parts;
use occ_text::steps;
use occ_text::tokens::{is_word, number};
use occ_text::versions::Version;
use std::alloc::{AllocError, Global};

/// The token at an index of a line. It is empty where there is none.
pub fn token_at(line: &[u8], index: usize) -> &[u8] {
    let mut parts = Parts::new(line, b' ');
    for _ in 0..index {
        let _before = parts.take_part();
    }
    parts.take_part().unwrap_or(b"")
}

/// A count that a line tells of lines behind it.
#[derive(Clone, Copy)]
pub struct Count {
    /// The line that tells it.
    pub line: u64,
    /// How many lines it counts.
    pub told: u64,
    /// The forms of these.
    pub forms: Forms,
}

/// What is still to come in a text, by what its lines so far have told.
#[derive(Drop)]
pub struct Walk {
    /// The version of the text.
    pub version: Version,
    /// Whether the text is a workload.
    pub is_workload: bool,
    /// How many sessions its header has, 0 where it didn't tell.
    pub sessions: u64,
    /// How many lines were taken.
    taken: u64,
    /// The latest count of lines of each kind.
    counts: Vec<Count>,
    /// How many lines of which forms are to come. The last of them stand next.
    to_come: Vec<(u64, Forms)>,
}

impl Walk {
    /// A walk before the first line.
    pub fn new(alloc: Global) -> Result<Walk, AllocError> {
        Walk::before(alloc, Version::One, 0, (1, FIRST))
    }

    /// A walk before a step of a text of this version, with so many sessions.
    pub fn in_steps(alloc: Global, version: Version, sessions: u64) -> Result<Walk, AllocError> {
        Walk::before(alloc, version, sessions, (u64::MAX, steps::forms()))
    }

    fn before(
        alloc: Global,
        version: Version,
        sessions: u64,
        due: (u64, Forms),
    ) -> Result<Walk, AllocError> {
        let mut to_come = Vec::new(alloc);
        to_come.push(due)?;
        Ok(Walk {
            version,
            is_workload: false,
            sessions,
            taken: 0,
            counts: Vec::new(alloc),
            to_come,
        })
    }

    // So many lines of these forms are to come, before all others.
    fn expect(&mut self, count: u64, forms: Forms) -> Result<(), AllocError> {
        if count > 0 {
            self.to_come.push((count, forms))?;
        }
        Ok(())
    }

    /// The forms of the lines that may stand next.
    pub fn due(&self) -> Forms {
        let Some((_, forms)) = self.to_come.last() else {
            return &[];
        };
        *forms
    }

    /// How many lines of the forms that may stand next are to come, and the count that told that, where it is one.
    pub fn due_count(&self) -> Option<(u64, Count)> {
        let (left, forms) = self.to_come.last()?;
        let count = self.count_of(token_at(forms.first()?.as_bytes(), 0))?;
        Some((*left, count))
    }

    /// The latest count of lines with this word.
    pub fn count_of(&self, word: &[u8]) -> Option<Count> {
        for count in self.counts.iter() {
            if form_of(count.forms, word).is_some() {
                return Some(*count);
            }
        }
        None
    }

    /// Whether a line with this word is to come behind those that may stand next.
    pub fn comes_later(&self, word: &[u8]) -> bool {
        let Some((_, later)) = self.to_come.split_last() else {
            return false;
        };
        for (_, forms) in later {
            if form_of(*forms, word).is_some() {
                return true;
            }
        }
        false
    }

    /// Goes over a well-formed line.
    pub fn take(&mut self, line: &[u8]) -> Result<(), AllocError> {
        let word = token_at(line, 0);
        self.taken = self.taken.saturating_add(1);
        self.take_header(line);
        self.count_down(line)?;
        if is_word(word, "occ") {
            self.to_come.extend_from_slice(OF_SCHEDULE)?;
        } else if is_word(word, "load") {
            self.to_come.extend_from_slice(OF_WORKLOAD)?;
        }
        for (head, index, forms) in brought() {
            if is_word(word, *head) {
                let count = number(token_at(line, *index), u64::MAX).unwrap_or(u64::MAX);
                self.expect(count, *forms)?;
                if *index > 0 {
                    self.keep(count, *forms)?;
                }
            }
        }
        Ok(())
    }

    // Keeps what a line of a header tells of the text.
    fn take_header(&mut self, line: &[u8]) {
        let word = token_at(line, 0);
        if is_word(line, "occ 2") || is_word(line, "load 2") {
            self.version = Version::Two;
        }
        if is_word(word, "load") {
            self.is_workload = true;
        }
        if is_word(word, "sessions") {
            self.sessions = number(token_at(line, 1), u64::MAX).unwrap_or(0);
        }
    }

    // Keeps that the line which was taken counts so many lines of these forms, in place of what the latest one told.
    fn keep(&mut self, told: u64, forms: Forms) -> Result<(), AllocError> {
        let count = Count {
            line: self.taken,
            told,
            forms,
        };
        for kept in self.counts.iter_mut() {
            if kept.forms.first() == forms.first() {
                *kept = count;
                return Ok(());
            }
        }
        self.counts.push(count)?;
        Ok(())
    }

    // A line is taken of those that stand next.
    fn count_down(&mut self, line: &[u8]) -> Result<(), AllocError> {
        let word = token_at(line, 0);
        let ends_tables = is_word(word, "steps")
            || is_word(word, "base")
            || is_word(word, "log")
            || is_word(line, "begin");
        match self.to_come.pop() {
            Some((count, forms)) if !ends_tables => self.expect(count.saturating_sub(1), forms),
            _ => Ok(()),
        }
    }
}
