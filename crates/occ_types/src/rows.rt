//! Rows of a table, which are seen as their cells.
ghost use Rattle.std.specs.Prelude.{◌≡◌, ◌==◌, List, [], ◌∷◌, length, slice_get, Some, IsOk, MatchResult};
ghost use Rattle.std.specs.Cmp.{partial_equiv_from_equiv};
ghost use Rattle.std.specs.Fmt.{WritesOnOk};
ghost use Rattle.std.specs.Option.{option_map};
ghost use Rattle.occ_types.specs.Row.{Int, Text as PlainText, int_at, text_at};
ghost use Rattle.occ_types.specs.Same.{row_same, row_same_equiv};
ghost use Rattle.occ_types.specs.PlainData.{cell_of, cell_lent, row_of};
ghost use Rattle.occ_types.specs.Spelling.{row_text};

use crate::cells::{Cell, CellRef};
use crate::texts::Text;
use std::alloc::{AllocError, AllocFailed, Allocator};
use std::fmt;
use std::marker::Model;
use std::sync::Arc;

/// A row of a table, which clauses see as its cells in the order of the columns. A row of one number has no memory of its own, and the
/// copies of another one share its cells, so that a copy takes no memory. `Display` writes it as the text formats do.
#[derive(Drop)]
#[derive_where(Debug)]
pub struct Row<A: Allocator> {
    cells: Cells<A>,
}

// What a row keeps: one cell in the row itself, or a list that its copies share. The kind of the one cell stands here and not in a `Cell`,
// since an enum in an enum is eight bytes longer.
#[derive(Drop)]
#[derive_where(Debug)]
pub(crate) enum Cells<A: Allocator> {
    Int(i64),
    Text(Text<A>),
    List(Arc<Vec<Cell<A>, A>, A>),
}

impl<A: Allocator> Model for Row<A> {
    ghost use Rattle.occ_types.specs.Row.{Row as Plain};

    ghost Value = { Plain };

    ghost use Rattle.occ_types.specs.PlainData.{row_in};

    ghost view = { λ row. row_in row.cells };
}

impl<A: Allocator> Row<A> {
    /// The row of one cell, which takes no memory.
    pub fn from_cell(cell: Cell<A>) -> Row<A>
        ensures { result ≡ cell_of cell ∷ [] }
    {
        let cells = match cell {
            Cell::Int(number) => Cells::Int(number),
            Cell::Text(text) => Cells::Text(text),
        };
        Row { cells }
    }

    /// The cell at a place of the row, where it has so many.
    pub fn cell(&self, place: usize) -> Option<CellRef<'_, A>>
        ensures { option_map cell_lent result ≡ slice_get self.now place }
    {
        match &self.cells {
            Cells::Int(number) if place == 0 => Some(CellRef::Int(*number)),
            Cells::Text(text) if place == 0 => Some(CellRef::Text(text)),
            Cells::Int(_) | Cells::Text(_) => None,
            Cells::List(cells) => match cells.as_slice().get(place) {
                Some(cell) => Some(cell.as_ref()),
                None => None,
            },
        }
    }

    /// The number in the cell at a place, where that cell is there and is a number.
    pub fn int(&self, place: usize) -> Option<i64>
        ensures { result ≡ int_at self.now place }
    {
        match self.cell(place) {
            Some(cell) => cell.as_int(),
            None => None,
        }
    }

    /// The text in the cell at a place, where that cell is there and is a text.
    pub fn text(&self, place: usize) -> Option<&str>
        ensures { option_map (λ text. text.now) result ≡ text_at self.now place }
    {
        match self.cell(place) {
            Some(cell) => cell.as_str(),
            None => None,
        }
    }

    /// How many cells the row has.
    pub fn len(&self) -> usize
        ensures { result ≡ length self.now }
    {
        match &self.cells {
            Cells::Int(_) | Cells::Text(_) => 1,
            Cells::List(cells) => cells.len(),
        }
    }

    /// Whether the row has no cell.
    pub fn is_empty(&self) -> bool
        ensures { result ≡ (length self.now == 0) }
    {
        self.len() == 0
    }
}

impl<A: Allocator> From<Cell<A>> for Row<A> {
    ghost from_gives = { λ cell row. row ≡ cell_of cell ∷ [] };

    fn from(cell: Cell<A>) -> Row<A> {
        Row::from_cell(cell)
    }
}

impl<A: Allocator> From<i64> for Row<A> {
    ghost from_gives = { λ number row. row ≡ Int number ∷ [] };

    fn from(number: i64) -> Row<A> {
        Row::from_cell(Cell::Int(number))
    }
}

impl<A: Allocator + Clone> Row<A> {
    /// The row of some cells. One cell alone takes no memory. Refused, and the cells handed back, where there is none for what the
    /// copies of others share.
    pub fn from_cells(cells: Vec<Cell<A>, A>) -> Result<Row<A>, AllocFailed<Vec<Cell<A>, A>>>
        ensures row { MatchResult result (λ row. row ≡ row_of cells.items) (λ failed. failed.value ≡ cells) }
        ensures single { length cells.items ≡ 1 → IsOk result }
    {
        let mut cells = cells;
        if cells.len() == 1
            && let Some(cell) = cells.pop()
        {
            return Ok(Row::from_cell(cell));
        }
        let Ok(alloc) = cells.allocator().clone() else {
            return Err(AllocFailed { value: cells });
        };
        match Arc::new(alloc, cells) {
            Ok(cells) => Ok(Row {
                cells: Cells::List(cells),
            }),
            Err(failed) => Err(failed),
        }
    }
}

impl<A: Allocator> Clone for Row<A> {
    ghost is_clone = { λ source copy. copy ≡ source };

    fn clone(&self) -> Result<Row<A>, AllocError> {
        match &self.cells {
            Cells::Int(number) => Ok(Row {
                cells: Cells::Int(*number),
            }),
            Cells::Text(text) => Ok(Row {
                cells: Cells::Text(text.clone()?),
            }),
            Cells::List(cells) => Ok(Row {
                cells: Cells::List(Arc::try_clone(cells)?),
            }),
        }
    }
}

impl<A: Allocator> fmt::Display for Row<A> {
    ghost output = { λ row. Some (row_text row) };

    fn fmt<W: fmt::Write>(&self, f: &mut fmt::Formatter<W>) -> fmt::Result {
        match &self.cells {
            Cells::Int(number) => f.write(*number),
            Cells::Text(text) => f.write(text),
            Cells::List(cells) => write_cells(f, cells.as_slice()),
        }
    }
}

// Writes cells with one comma between two of them.
fn write_cells<A: Allocator, W: fmt::Write>(
    f: &mut fmt::Formatter<W>,
    cells: &[Cell<A>],
) -> fmt::Result
    ensures { WritesOnOk W.write_str_gives f.old result (row_text (row_of cells.now)) f.new }
{
    if let [first, rest @ ..] = cells {
        f.write(first)?;
        for cell in rest {
            write!(f, ",{cell}")?;
        }
    }
    Ok(())
}

impl<A: Allocator> PartialEq for Row<A> {
    ghost eq = { row_same };

    ghost laws = { partial_equiv_from_equiv row_same_equiv };

    fn eq(&self, other: &Row<A>) -> bool {
        match (&self.cells, &other.cells) {
            (Cells::Int(number), Cells::Int(another)) => number == another,
            (Cells::Text(text), Cells::Text(another)) => text == another,
            (Cells::List(cells), Cells::List(others)) => {
                same_cells(cells.as_slice(), others.as_slice())
            }
            (Cells::Int(number), Cells::List(others)) => {
                matches!(others.as_slice(), [Cell::Int(other)] if number == other)
            }
            (Cells::Text(text), Cells::List(others)) => {
                matches!(others.as_slice(), [Cell::Text(other)] if text == other)
            }
            (Cells::List(cells), Cells::Int(other)) => {
                matches!(cells.as_slice(), [Cell::Int(number)] if number == other)
            }
            (Cells::List(cells), Cells::Text(other)) => {
                matches!(cells.as_slice(), [Cell::Text(text)] if text == other)
            }
            _ => false,
        }
    }
}

impl<A: Allocator> Eq for Row<A> {
    ghost laws = { row_same_equiv };
}

// Whether two lists have equal cells.
fn same_cells<A: Allocator>(cells: &[Cell<A>], others: &[Cell<A>]) -> bool
    ensures { result ≡ row_same (row_of cells.now) (row_of others.now) }
{
    cells == others
}
