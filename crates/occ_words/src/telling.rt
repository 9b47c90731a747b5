//! How sayings are written: as lines of a text, or as objects.

use crate::phrases::{push_all, write_counted};
use crate::sayings::{Saying, json_line};
use occ_text::trouble::Trouble;
use occ_text::writers::write_number;
use std::alloc::{AllocError, Global};
use std::io::Write;

/// As many spaces as stand behind a step at most.
const SPACES: &str = "                                ";

/// How sayings are written.
#[derive(Clone, Copy, Debug, PartialEq, Eq)]
pub enum Style {
    /// `NAME:LINE: SENTENCE`, or `NAME: SENTENCE` where it is about no line.
    Text,
    /// One object a saying.
    Json,
}

/// What is told of a file: lines that are yet to be sent to a writer.
#[derive(Drop)]
pub struct Told {
    text: String,
    style: Style,
    name: String,
}

impl Told {
    /// Nothing is told yet of the file of a name.
    pub fn new(alloc: Global, name: &str, style: Style) -> Result<Told, AllocError> {
        Ok(Told {
            text: String::new(alloc),
            style,
            name: String::from_str(alloc, name)?,
        })
    }

    /// Whether sayings are lines of a text.
    pub fn is_text(&self) -> bool {
        self.style == Style::Text
    }

    /// Writes a saying on a line.
    pub fn say(&mut self, alloc: Global, saying: &Saying) -> Result<(), AllocError> {
        match self.style {
            Style::Json => {
                let line = json_line(alloc, saying)?;
                push_all(&mut self.text, &[line.as_str(), "\n"])
            }
            Style::Text => self.say_line(saying.line, saying.sentence.as_str()),
        }
    }

    // Writes a sentence on a line, behind the name of the file and the number of the line that it is about.
    fn say_line(&mut self, line: Option<u64>, sentence: &str) -> Result<(), AllocError> {
        self.text.push_str(self.name.as_str())?;
        if let Some(line) = line {
            write_counted(&mut self.text, ":", line)?;
        }
        push_all(&mut self.text, &[": ", sentence, "\n"])
    }

    /// Writes an end, where sayings are lines of a text.
    pub fn end(&mut self, words: &str) -> Result<(), AllocError> {
        if self.style == Style::Json {
            return Ok(());
        }
        self.say_line(None, words)
    }

    /// Writes a step with its answer beside it.
    pub fn list(&mut self, number: u64, step: &str, answer: &str) -> Result<(), AllocError> {
        write_number(&mut self.text, number)?;
        let space = SPACES.get(step.len()..).unwrap_or("");
        push_all(&mut self.text, &["\t", step, space, " | ", answer, "\n"])
    }

    /// Sends all that is written and wasn't sent. `Write` where the writer fails.
    pub fn send<W: Write>(&mut self, writer: &mut W) -> Result<(), Trouble> {
        if writer.write_all(self.text.as_bytes()).is_err() {
            return Err(Trouble::Write);
        }
        self.text.clear();
        Ok(())
    }
}
