//! What is written into a room that C gives.
ghost use Rattle.std.specs.Prelude.{◌≡◌, length};
ghost use Rattle.occ_bytes.specs.Bytes.{put_at};
ghost use Rattle.occ_c.specs.Desks.{WritesRow};
ghost use Rattle.occ_c.specs.Texts.{part_from};

use crate::codes::{OK, ROOM};
use occ_bytes::{put_bytes, put_row, row_size};
use occ_types::Row;
use std::alloc::Global;

/// Writes a row to the beginning of a room, and tells its size; where the room is too short, nothing but the size.
pub(crate) fn write_row(row: &Row<Global>, room: &mut [u8], size: &mut usize) -> i32
    ensures { WritesRow row.now room.old room.new size.new result }
{
    *size = row_size(row);
    if *size > room.len() {
        return ROOM;
    }
    let _behind = put_row(room, 0, row);
    OK
}

/// Copies as many bytes of a text as a room has, from a place on, and answers how many.
pub(crate) fn write_part(text: &[u8], from: usize, room: &mut [u8]) -> usize
    ensures count { result ≡ length (part_from text.now from (length room.old)) }
    ensures part { room.new ≡ put_at room.old 0 (part_from text.now from (length room.old)) }
{
    if from > text.len() {
        return 0;
    }
    let rest = &text[from..];
    let count = rest.len().min(room.len());
    put_bytes(room, 0, &rest[..count])
}
