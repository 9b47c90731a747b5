//! Keys and rows that are written into a room.
ghost use Rattle.std.specs.Prelude.{◌≡◌, ◌≤◌, ◌<◌, ◌+◌, Some, length, slice_get};
ghost use Rattle.occ_types.specs.Row.{Cell as PlainCell};
ghost use Rattle.occ_types.specs.PlainData.{cell_lent, key_of, part_of};
ghost use Rattle.occ_bytes.specs.Bytes.{text_bytes, part_bytes, key_bytes, cell_bytes, row_bytes, number_bytes, put_at, IsSize};

use occ_types::{CellRef, Key, KeyPart, Row, Text};
use std::alloc::Allocator;

// How many bytes a text takes.
fn text_size<A: Allocator>(text: &Text<A>) -> usize
    ensures { IsSize result (length (text_bytes text.now)) }
{
    text.len().saturating_add(8)
}

fn part_size<A: Allocator>(part: &KeyPart<A>) -> usize
    ensures { IsSize result (length (part_bytes (part_of part.now))) }
{
    match part {
        KeyPart::Num(_) => 8,
        KeyPart::Text(text) => text_size(text),
    }
}

/// How many bytes a key takes, or the greatest number of 64 bits where they are more.
pub fn key_size<A: Allocator>(key: &Key<A>) -> usize
    ensures { IsSize result (length (key_bytes (key_of key.now))) }
{
    match key {
        Key::Num(_) => 8,
        Key::Text(text) => text_size(text),
        Key::Pair(pair) => part_size(pair.first()).saturating_add(part_size(pair.second())),
    }
}

fn cell_size<A: Allocator>(cell: &CellRef<'_, A>) -> usize
    ensures { IsSize result (length (cell_bytes (cell_lent cell.now))) }
{
    match cell {
        CellRef::Int(_) => 8,
        CellRef::Text(text) => text_size(text),
    }
}

// How many bytes the cell at a place takes.
fn size_at<A: Allocator>(row: &Row<A>, place: usize) -> usize
    ensures { (cell : PlainCell) → slice_get row.now place ≡ Some cell → IsSize result (length (cell_bytes cell)) }
{
    match row.cell(place) {
        Some(cell) => cell_size(&cell),
        None => 0,
    }
}

/// How many bytes a row takes, or the greatest number of 64 bits where they are more.
pub fn row_size<A: Allocator>(row: &Row<A>) -> usize
    ensures { IsSize result (length (row_bytes row.now)) }
{
    let mut size: usize = 0;
    for place in 0..row.len() {
        size = size.saturating_add(size_at(row, place));
    }
    size
}

/// Puts bytes at a place of a room, and answers the place behind them. Where they have no room there, nothing is put and the place is answered.
pub fn put_bytes(room: &mut [u8], at: usize, bytes: &[u8]) -> usize
    ensures put { at + length bytes.now ≤ length room.old → (room.new ≡ put_at room.old at bytes.now) × (result ≡ at + length bytes.now) }
    ensures left_out { length room.old < at + length bytes.now → (room.new ≡ room.old) × (result ≡ at) }
    ensures length { length room.new ≡ length room.old }
{
    if at > room.len() || bytes.len() > room.len() - at {
        return at;
    }
    let end = at + bytes.len();
    room[at..end].copy_from_slice(bytes);
    end
}

#[tactic(auto, unfolding(crate::specs::Bytes::number_bytes))]
fn put_number(room: &mut [u8], at: usize, number: u64) -> usize
    ensures put { at + length (number_bytes number) ≤ length room.old → (room.new ≡ put_at room.old at (number_bytes number)) × (result ≡ at + length (number_bytes number)) }
    ensures length { length room.new ≡ length room.old }
{
    put_bytes(room, at, &number.to_le_bytes())
}

fn put_text<A: Allocator>(room: &mut [u8], at: usize, text: &Text<A>) -> usize
    ensures put { at + length (text_bytes text.now) ≤ length room.old → (room.new ≡ put_at room.old at (text_bytes text.now)) × (result ≡ at + length (text_bytes text.now)) }
    ensures length { length room.new ≡ length room.old }
{
    let behind = put_number(room, at, text.len() as u64);
    put_bytes(room, behind, text.as_bytes())
}

fn put_part<A: Allocator>(room: &mut [u8], at: usize, part: &KeyPart<A>) -> usize
    ensures put { at + length (part_bytes (part_of part.now)) ≤ length room.old → (room.new ≡ put_at room.old at (part_bytes (part_of part.now))) × (result ≡ at + length (part_bytes (part_of part.now))) }
    ensures length { length room.new ≡ length room.old }
{
    match part {
        KeyPart::Num(number) => put_number(room, at, *number),
        KeyPart::Text(text) => put_text(room, at, text),
    }
}

/// Puts a key at a place of a room, and answers the place behind it. A room with fewer than `key_size` bytes there gets some parts of it and
/// lacks others, and the answer says nothing: ask for the size first.
pub fn put_key<A: Allocator>(room: &mut [u8], at: usize, key: &Key<A>) -> usize
    ensures put { at + length (key_bytes (key_of key.now)) ≤ length room.old → (room.new ≡ put_at room.old at (key_bytes (key_of key.now))) × (result ≡ at + length (key_bytes (key_of key.now))) }
    ensures length { length room.new ≡ length room.old }
{
    match key {
        Key::Num(number) => put_number(room, at, *number),
        Key::Text(text) => put_text(room, at, text),
        Key::Pair(pair) => {
            let behind = put_part(room, at, pair.first());
            put_part(room, behind, pair.second())
        }
    }
}

fn put_cell<A: Allocator>(room: &mut [u8], at: usize, cell: &CellRef<'_, A>) -> usize
    ensures put { at + length (cell_bytes (cell_lent cell.now)) ≤ length room.old → (room.new ≡ put_at room.old at (cell_bytes (cell_lent cell.now))) × (result ≡ at + length (cell_bytes (cell_lent cell.now))) }
    ensures length { length room.new ≡ length room.old }
{
    match cell {
        CellRef::Int(number) => put_number(room, at, number.cast_unsigned()),
        CellRef::Text(text) => put_text(room, at, text),
    }
}

// Puts the cell at a place of a row.
fn put_place<A: Allocator>(room: &mut [u8], at: usize, row: &Row<A>, place: usize) -> usize
    ensures put { (cell : PlainCell) → slice_get row.now place ≡ Some cell → at + length (cell_bytes cell) ≤ length room.old → (room.new ≡ put_at room.old at (cell_bytes cell)) × (result ≡ at + length (cell_bytes cell)) }
    ensures length { length room.new ≡ length room.old }
{
    match row.cell(place) {
        Some(cell) => put_cell(room, at, &cell),
        None => at,
    }
}

/// Puts a row at a place of a room, and answers the place behind it. A room with fewer than `row_size` bytes there gets some parts of it and
/// lacks others, and the answer says nothing: ask for the size first.
pub fn put_row<A: Allocator>(room: &mut [u8], at: usize, row: &Row<A>) -> usize
    ensures put { at + length (row_bytes row.now) ≤ length room.old → (room.new ≡ put_at room.old at (row_bytes row.now)) × (result ≡ at + length (row_bytes row.now)) }
    ensures length { length room.new ≡ length room.old }
{
    let mut behind = at;
    for place in 0..row.len() {
        behind = put_place(room, behind, row, place);
    }
    behind
}
