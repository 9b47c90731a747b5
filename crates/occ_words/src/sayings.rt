//! Findings and notes as sentences.

use serde_json::{Map, Value, put};
use std::alloc::{AllocError, Global};

/// What a saying is about. Its word stands in an object of JSON.
#[derive(Clone, Copy, Debug)]
pub enum Subject {
    /// A line that can't stand where it stands: `malformed`.
    Malformed,
    /// The place of a row: `place`.
    Place,
    /// The number of a row: `number`.
    Number,
    /// A closing mark: `mark`.
    Mark,
    /// A read of a row: `read`.
    Read,
    /// An object of the tables: `object`.
    Object,
    /// A step that is refused: `refused`.
    Refused,
    /// A transaction that is backed up: `backed_up`.
    BackedUp,
    /// What the audit doesn't judge: `note`.
    Note,
}

fn word(subject: Subject) -> &'static str {
    match subject {
        Subject::Malformed => "malformed",
        Subject::Place => "place",
        Subject::Number => "number",
        Subject::Mark => "mark",
        Subject::Read => "read",
        Subject::Object => "object",
        Subject::Refused => "refused",
        Subject::BackedUp => "backed_up",
        Subject::Note => "note",
    }
}

/// A number that a saying speaks of, under its name.
#[derive(Clone, Copy, Debug)]
pub struct Figure {
    /// Its name.
    pub name: &'static str,
    /// The number.
    pub value: u64,
}

/// One finding or one note in words.
#[derive(Drop)]
pub struct Saying {
    /// What it is about.
    pub subject: Subject,
    /// The line of the text that it points to, counted from 1, where it is about one.
    pub line: Option<u64>,
    /// The numbers that it speaks of.
    pub figures: Vec<Figure>,
    /// The sentence.
    pub sentence: String,
}

impl Saying {
    /// A saying without words yet.
    pub fn new(alloc: Global, subject: Subject, line: Option<u64>) -> Saying {
        Saying {
            subject,
            line,
            figures: Vec::new(alloc),
            sentence: String::new(alloc),
        }
    }

    /// Adds a number under its name.
    pub fn tell(&mut self, name: &'static str, value: u64) -> Result<(), AllocError> {
        self.figures.push(Figure { name, value })?;
        Ok(())
    }
}

/// A saying as an object of JSON, on one line without a line feed: under `kind` the word of what it is about, under `line` its line where it has one, its numbers under their names, and under `says` its sentence.
pub fn json_line(alloc: Global, saying: &Saying) -> Result<String, AllocError> {
    let mut members = Map::new(alloc);
    put_text(alloc, &mut members, "kind", word(saying.subject))?;
    put_numbers(alloc, &mut members, saying)?;
    put_text(alloc, &mut members, "says", saying.sentence.as_str())?;
    Value::Object(members).to_string(alloc)
}

fn put_text(
    alloc: Global,
    members: &mut Map<String, Value>,
    name: &str,
    text: &str,
) -> Result<(), AllocError> {
    let value = Value::try_from_str(alloc, text)?;
    put(members, alloc, name, value)
}

fn put_numbers(
    alloc: Global,
    members: &mut Map<String, Value>,
    saying: &Saying,
) -> Result<(), AllocError> {
    if let Some(line) = saying.line {
        put(members, alloc, "line", Value::from(line))?;
    }
    for Figure { name, value } in saying.figures.as_slice() {
        put(members, alloc, *name, Value::from(*value))?;
    }
    Ok(())
}
