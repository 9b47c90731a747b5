//! The definition of a table, and what fits it.
ghost use Rattle.std.specs.Prelude.{◌≡◌, nat_eq, length};
ghost use Rattle.std.specs.List.{list_any, list_all};
ghost use Rattle.std.specs.Option.{option_copied};
ghost use Rattle.std.specs.Result.{result_err};
ghost use Rattle.std.specs.Cmp.Lexicographic.{pointwise};
ghost use Rattle.occ_types.specs.Schema.{check_key_in, check_row_in, check_cell, check_cells, fits_before, check_end, part_has_kind, part_is_too_long, key_has_kind, key_is_too_long, is_name, is_letter};
ghost use Rattle.occ_types.specs.PlainData.{cell_lent, part_of, key_of, end_of, table_of, tables_of};

use crate::cells::CellRef;
use crate::fault::Fault;
use crate::key_parts::KeyPart;
use crate::keys::Key;
use crate::kind::{KeyKind, Kind, PartKind};
use crate::limits::{MAX_CELL_BYTES, MAX_COLUMNS, MAX_KEY_BYTES, MAX_NAME_LETTERS};
use crate::rows::Row;
use crate::texts::Text;
use std::alloc::{AllocError, Allocator};

/// A table: its name, the kind of its keys, and the kinds of its columns.
#[derive(Drop)]
#[derive_where(Debug)]
pub struct TableDef<A: Allocator> {
    /// The name, 1 to 16 letters a to z in a schema.
    pub name: Text<A>,
    /// The kind of the keys.
    pub key: KeyKind,
    /// The kinds of the columns in their order, 1 to 8 in a schema.
    pub columns: Vec<Kind, A>,
}

impl<A: Allocator> TableDef<A> {
    /// Whether a key fits the table: `WrongKind`, or else `TooLong`. Of a pair, the kinds of both parts are tried before any length.
    pub fn check_key(&self, key: &Key<A>) -> Result<(), Fault>
        ensures { result_err result ≡ check_key_in (table_of self.now) (key_of key.now) }
    {
        if !key_has_kind(self.key, key) {
            return Err(Fault::WrongKind);
        }
        if key_is_too_long(key) {
            return Err(Fault::TooLong);
        }
        Ok(())
    }

    /// Whether an end of a range fits the table, where there is one.
    pub fn check_end(&self, end: Option<&Key<A>>) -> Result<(), Fault>
        ensures { result_err result ≡ check_end (table_of self.now) (end_of (option_copied end.entry)) }
    {
        match end {
            None => Ok(()),
            Some(key) => self.check_key(key),
        }
    }

    /// Whether a row fits the table: `WrongColumns`, or else the first fault of a cell, `WrongKind` or `TooLong`.
    pub fn check_row(&self, row: &Row<A>) -> Result<(), Fault>
        ensures { result_err result ≡ check_row_in (table_of self.now) row.now }
    {
        if row.len() != self.columns.len() {
            return Err(Fault::WrongColumns);
        }
        check_cells(self.columns.as_slice(), row)
    }

    /// Whether the table may stand before `later` in a schema: it has a good name that none of them has, and 1 to 8 columns.
    #[tactic(auto, using(crate::proofs::Walks::through))]
    pub(crate) fn fits_before(&self, later: &[TableDef<A>]) -> bool
        ensures { result ≡ fits_before (table_of self.now) (tables_of later.now) }
    {
        is_name(&self.name)
            && !self.shares_name(later)
            && !self.columns.is_empty()
            && self.columns.len() <= MAX_COLUMNS
    }

    // Whether one of `others` has the table's name.
    fn shares_name(&self, others: &[TableDef<A>]) -> bool
        ensures { result ≡ list_any (λ other. pointwise nat_eq self.now.name other.name) others.now }
    {
        others.iter().any(|other| self.name == other.name)
    }
}

// Whether a part of a key has the kind.
pub(crate) fn part_has_kind<A: Allocator>(kind: PartKind, part: &KeyPart<A>) -> bool
    ensures { result ≡ part_has_kind kind (part_of part.now) }
{
    matches!(
        (kind, part),
        (PartKind::Num, KeyPart::Num(_)) | (PartKind::Text, KeyPart::Text(_))
    )
}

// Whether a part of a key is a text over its limit.
fn part_is_too_long<A: Allocator>(part: &KeyPart<A>) -> bool
    ensures { result ≡ part_is_too_long (part_of part.now) }
{
    match part {
        KeyPart::Num(_) => false,
        KeyPart::Text(text) => text.len() > MAX_KEY_BYTES,
    }
}

// Whether a key has the kind; of a pair, each part its own.
fn key_has_kind<A: Allocator>(kind: KeyKind, key: &Key<A>) -> bool
    ensures { result ≡ key_has_kind kind (key_of key.now) }
{
    match (kind, key) {
        (KeyKind::Num, Key::Num(_)) => true,
        (KeyKind::Text, Key::Text(_)) => true,
        (KeyKind::Pair(first, second), Key::Pair(pair)) => {
            part_has_kind(first, pair.first()) && part_has_kind(second, pair.second())
        }
        _ => false,
    }
}

// Whether a text of a key is over its limit.
fn key_is_too_long<A: Allocator>(key: &Key<A>) -> bool
    ensures { result ≡ key_is_too_long (key_of key.now) }
{
    match key {
        Key::Num(_) => false,
        Key::Text(text) => text.len() > MAX_KEY_BYTES,
        Key::Pair(pair) => part_is_too_long(pair.first()) || part_is_too_long(pair.second()),
    }
}

// 1 to 16 letters.
fn is_name<A: Allocator>(name: &Text<A>) -> bool
    ensures { result ≡ is_name name.now }
{
    !name.is_empty() && name.len() <= MAX_NAME_LETTERS && has_only_letters(name.as_bytes())
}

// Letters a to z alone.
fn has_only_letters(name: &[u8]) -> bool
    ensures { result ≡ list_all is_letter name.now }
{
    name.iter().all(|byte| is_letter(*byte))
}

// A letter a to z.
fn is_letter(byte: u8) -> bool
    ensures { result ≡ is_letter byte }
{
    b'a' <= byte && byte <= b'z'
}

// Whether a cell fits its column.
fn check_cell<A: Allocator>(kind: Kind, cell: &CellRef<'_, A>) -> Result<(), Fault>
    ensures { result_err result ≡ check_cell kind (cell_lent cell.now) }
{
    match (kind, cell) {
        (Kind::Int, CellRef::Int(_)) => Ok(()),
        (Kind::Text, CellRef::Text(text)) if text.len() <= MAX_CELL_BYTES => Ok(()),
        (Kind::Text, CellRef::Text(_)) => Err(Fault::TooLong),
        _ => Err(Fault::WrongKind),
    }
}

// Whether each cell fits its column.
fn check_cells<A: Allocator>(kinds: &[Kind], row: &Row<A>) -> Result<(), Fault>
    requires { length row.now ≡ length kinds.now }
    ensures { result_err result ≡ check_cells kinds.now row.now }
{
    for (place, kind) in kinds.iter().enumerate() {
        match row.cell(place) {
            Some(cell) => check_cell(*kind, &cell)?,
            None => return Ok(()),
        }
    }
    Ok(())
}

impl<A: Allocator + Clone> Clone for TableDef<A> {
    ghost is_clone = { λ source copy. table_of copy ≡ table_of source };

    fn clone(&self) -> Result<TableDef<A>, AllocError> {
        let name = self.name.clone()?;
        let columns = Vec::from_slice(self.columns.allocator().clone()?, self.columns.as_slice())?;
        Ok(TableDef {
            name,
            key: self.key,
            columns,
        })
    }
}
