//! Cells of a row.
ghost use Rattle.std.specs.Prelude.{◌≡◌, Some, option_map, IfOk};
ghost use Rattle.std.specs.Ordering.{on};
ghost use Rattle.std.specs.Cmp.{on_per, on_equiv, partial_equiv_from_equiv};
ghost use Rattle.occ_types.specs.Row.{Int, Text as PlainText, int_in, text_in};
ghost use Rattle.occ_types.specs.Same.{cell_same, cell_same_equiv};
ghost use Rattle.occ_types.specs.PlainData.{cell_of, cell_lent};
ghost use Rattle.occ_types.specs.Spelling.{cell_text};

use crate::texts::Text;
use std::alloc::{AllocError, Allocator};
use std::fmt;

/// A cell of a row. `Display` writes it as the text formats do.
#[derive(Drop)]
#[derive_where(Debug)]
pub enum Cell<A: Allocator> {
    /// A whole number of 64 bits.
    Int(i64),
    /// A text.
    Text(Text<A>),
}

/// A cell of a row, as the row lends it: a number itself, and a text by a reference. `Display` writes it as the text formats do.
#[derive_where(Clone, Copy, Debug)]
pub enum CellRef<'a, A: Allocator> {
    /// A whole number of 64 bits.
    Int(i64),
    /// A text.
    Text(&'a Text<A>),
}

impl<A: Allocator> From<i64> for Cell<A> {
    ghost from_gives = { λ number cell. cell_of cell ≡ Int number };

    fn from(number: i64) -> Cell<A> {
        Cell::Int(number)
    }
}

impl<A: Allocator> Cell<A> {
    /// The cell, lent.
    pub fn as_ref(&self) -> CellRef<'_, A>
        ensures { cell_lent result ≡ cell_of self.now }
    {
        match self {
            Cell::Int(number) => CellRef::Int(*number),
            Cell::Text(text) => CellRef::Text(text),
        }
    }

    /// The number of the cell, where it is one.
    pub fn as_int(&self) -> Option<i64>
        ensures { result ≡ int_in (cell_of self.now) }
    {
        match self {
            Cell::Int(number) => Some(*number),
            Cell::Text(_) => None,
        }
    }

    /// The text of the cell, where it is one.
    pub fn as_str(&self) -> Option<&str>
        ensures { option_map (λ text. text.now) result ≡ text_in (cell_of self.now) }
    {
        match self {
            Cell::Int(_) => None,
            Cell::Text(text) => Some(text.as_str()),
        }
    }
}

impl<'a, A: Allocator> CellRef<'a, A> {
    /// The number of the cell, where it is one.
    pub fn as_int(&self) -> Option<i64>
        ensures { result ≡ int_in (cell_lent self.now) }
    {
        match self {
            CellRef::Int(number) => Some(*number),
            CellRef::Text(_) => None,
        }
    }

    /// The text of the cell, where it is one. It is lent as long as the row.
    pub fn as_str(&self) -> Option<&'a str>
        ensures { option_map (λ text. text.now) result ≡ text_in (cell_lent self.now) }
    {
        match self {
            CellRef::Int(_) => None,
            CellRef::Text(text) => Some(text.as_str()),
        }
    }

    /// A cell of one's own. A text shares its bytes with the row, so that it takes no memory.
    pub fn to_cell(&self) -> Result<Cell<A>, AllocError>
        ensures { IfOk result (λ cell. cell_of cell ≡ cell_lent self.now) }
    {
        match self {
            CellRef::Int(number) => Ok(Cell::Int(*number)),
            CellRef::Text(text) => Ok(Cell::Text(Text::clone(text)?)),
        }
    }
}

impl<A: Allocator + Clone> Cell<A> {
    /// The cell of a text; an error where there is no memory for it.
    pub fn text(alloc: A, text: &str) -> Result<Cell<A>, AllocError>
        ensures { IfOk result (λ cell. cell_of cell ≡ PlainText text.now) }
    {
        Ok(Cell::Text(Text::new(alloc, text)?))
    }
}

impl<A: Allocator> Clone for Cell<A> {
    ghost is_clone = { λ source copy. copy ≡ source };

    fn clone(&self) -> Result<Cell<A>, AllocError> {
        match self {
            Cell::Int(number) => Ok(Cell::Int(*number)),
            Cell::Text(text) => Ok(Cell::Text(text.clone()?)),
        }
    }
}

impl<A: Allocator> fmt::Display for Cell<A> {
    ghost output = { λ cell. Some (cell_text (cell_of cell)) };

    fn fmt<W: fmt::Write>(&self, f: &mut fmt::Formatter<W>) -> fmt::Result {
        match self {
            Cell::Int(number) => f.write(*number),
            Cell::Text(text) => f.write(text),
        }
    }
}

impl<'a, A: Allocator> fmt::Display for CellRef<'a, A> {
    ghost output = { λ cell. Some (cell_text (cell_lent cell)) };

    fn fmt<W: fmt::Write>(&self, f: &mut fmt::Formatter<W>) -> fmt::Result {
        match self {
            CellRef::Int(number) => f.write(*number),
            CellRef::Text(text) => f.write(*text),
        }
    }
}

impl<A: Allocator> PartialEq for Cell<A> {
    ghost eq = { on cell_of cell_same };

    ghost laws = { on_per cell_of (partial_equiv_from_equiv cell_same_equiv) };

    fn eq(&self, other: &Cell<A>) -> bool {
        match (self, other) {
            (Cell::Int(number), Cell::Int(another)) => number == another,
            (Cell::Text(text), Cell::Text(another)) => text == another,
            _ => false,
        }
    }
}

impl<A: Allocator> Eq for Cell<A> {
    ghost laws = { on_equiv cell_of cell_same_equiv };
}
