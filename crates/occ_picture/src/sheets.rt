//! The text of a picture, and its parts.

use occ_text::writers::write_number;
use std::alloc::{AllocError, Allocator};

/// How many bytes of a line of a book are told.
const LINE: usize = 96;

/// A point: how far it is from the left, and from the top.
pub(crate) type Point = (u64, u64);

/// A part of the text of a picture, and beside it a line of a book that is to be told there.
#[derive(Drop)]
pub(crate) struct Sheet<A: Allocator> {
    pub(crate) text: String<A>,
    pub(crate) line: String<A>,
}

impl<A: Allocator + Copy> Sheet<A> {
    /// An empty sheet.
    pub(crate) fn new(alloc: A) -> Sheet<A> {
        Sheet {
            text: String::new(alloc),
            line: String::new(alloc),
        }
    }
}

impl<A: Allocator> Sheet<A> {
    /// Appends words.
    pub(crate) fn say(&mut self, words: &str) -> Result<(), AllocError> {
        self.text.push_str(words)
    }

    /// Appends words and a number behind them.
    pub(crate) fn put(&mut self, words: &str, number: u64) -> Result<(), AllocError> {
        self.text.push_str(words)?;
        write_number(&mut self.text, number)
    }

    /// Appends a line feed and the beginning of the line, with the signs of XML as it spells them.
    pub(crate) fn tell_line(&mut self) -> Result<(), AllocError> {
        self.say("\n")?;
        spell(&mut self.text, self.line.as_bytes(), LINE)?;
        if self.line.len() > LINE {
            self.say("...")?;
        }
        Ok(())
    }

    /// Appends the beginning of a picture of a width and a height.
    pub(crate) fn draw_size(&mut self, width: u64, height: u64) -> Result<(), AllocError> {
        self.put("<svg xmlns=\"http://www.w3.org/2000/svg\" width=\"", width)?;
        self.put("\" height=\"", height)?;
        self.put("\" viewBox=\"0 0 ", width)?;
        self.put(" ", height)?;
        self.say("\">\n")
    }

    /// Appends words, with the signs of XML as it spells them.
    pub(crate) fn tell(&mut self, words: &[u8]) -> Result<(), AllocError> {
        spell(&mut self.text, words, usize::MAX)
    }

    /// Appends words of a class at a point, with the signs of XML as it spells them.
    pub(crate) fn draw_words(
        &mut self,
        class: &str,
        words: &[u8],
        at: Point,
    ) -> Result<(), AllocError> {
        self.begin_words(class, at)?;
        self.tell(words)?;
        self.say("</text>\n")
    }

    /// Appends so many letters of the line, as words of a class at a point.
    pub(crate) fn draw_told(
        &mut self,
        class: &str,
        most: usize,
        at: Point,
    ) -> Result<(), AllocError> {
        self.begin_words(class, at)?;
        spell(&mut self.text, self.line.as_bytes(), most)?;
        self.say("</text>\n")
    }

    fn begin_words(&mut self, class: &str, at: Point) -> Result<(), AllocError> {
        self.say("<text class=\"")?;
        self.say(class)?;
        self.put_at(at)?;
        self.say("\">")
    }

    /// Appends a box of a class from a point on, of a width and a height.
    pub(crate) fn draw_box(
        &mut self,
        class: &str,
        at: Point,
        size: Point,
    ) -> Result<(), AllocError> {
        self.say("<rect class=\"")?;
        self.say(class)?;
        self.put_at(at)?;
        self.put("\" width=\"", size.0)?;
        self.put("\" height=\"", size.1)?;
        self.say("\"/>\n")
    }

    // Appends the coordinates of a point as attributes.
    fn put_at(&mut self, at: Point) -> Result<(), AllocError> {
        self.put("\" x=\"", at.0)?;
        self.put("\" y=\"", at.1)
    }

    /// Appends a symbol at a point.
    pub(crate) fn draw_symbol(&mut self, name: &str, at: Point) -> Result<(), AllocError> {
        self.say("<use href=\"#")?;
        self.say(name)?;
        self.put_at(at)?;
        self.say("\"/>\n")
    }

    /// Appends a number of a class at a point.
    pub(crate) fn draw_label(
        &mut self,
        class: &str,
        number: u64,
        at: Point,
    ) -> Result<(), AllocError> {
        self.begin_words(class, at)?;
        write_number(&mut self.text, number)?;
        self.say("</text>\n")
    }

    /// Appends a line of a class.
    pub(crate) fn draw_line(
        &mut self,
        class: &str,
        from: Point,
        to: Point,
    ) -> Result<(), AllocError> {
        self.begin_path(class, from)?;
        self.put("L", to.0)?;
        self.put(" ", to.1)?;
        self.say("\"/>\n")
    }

    /// Appends a line of a class that goes to the side, up or down, and to the side again.
    pub(crate) fn draw_turns(
        &mut self,
        class: &str,
        from: Point,
        turn: u64,
        to: Point,
    ) -> Result<(), AllocError> {
        self.begin_path(class, from)?;
        self.put("H", turn)?;
        self.put("V", to.1)?;
        self.put("H", to.0)?;
        self.say("\"/>\n")
    }

    fn begin_path(&mut self, class: &str, from: Point) -> Result<(), AllocError> {
        self.say("<path class=\"")?;
        self.say(class)?;
        self.put("\" d=\"M", from.0)?;
        self.put(" ", from.1)
    }
}

// Appends at most so many bytes of words, with the signs of XML as it spells them.
fn spell<A: Allocator>(text: &mut String<A>, words: &[u8], most: usize) -> Result<(), AllocError> {
    for byte in words.iter().take(most) {
        put_byte(text, *byte)?;
    }
    Ok(())
}

// Lines of a book have no byte above 126.
fn put_byte<A: Allocator>(text: &mut String<A>, byte: u8) -> Result<(), AllocError> {
    match byte {
        b'&' => text.push_str("&amp;"),
        b'<' => text.push_str("&lt;"),
        b'>' => text.push_str("&gt;"),
        _ => text.push(sign(byte)),
    }
}

fn sign(byte: u8) -> char {
    match byte {
        32..=126 => char::from(byte),
        _ => '?',
    }
}
