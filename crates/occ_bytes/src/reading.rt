//! Keys and rows that are read of bytes.
ghost use Rattle.std.specs.Prelude.{⊤, ◌≡◌, ◌<◌, ◌^◌, ◌++◌, ℕ, ℤ, List, [], ◌∷◌, length, IfOk, IfSome, IsOkUnless, MatchOption, OnOk};
ghost use Rattle.occ_bytes.specs.declared.reading.Unread.TheVariants.{Malformed, Memory};
ghost use Rattle.occ_types.specs.PlainData.{cell_of, key_of, part_of, row_of};
ghost use Rattle.occ_bytes.specs.Bytes.{number_bytes, text_bytes, part_bytes, key_bytes, cell_bytes, row_bytes};
ghost use Rattle.occ_bytes.specs.Reading.{IsPart, IsKey, IsCell, IsRow, IsUtf8Part, IsUtf8Key, IsUtf8Cell, IsUtf8Row, IsPushed, ReadsBack, TakesBack, taken_of};
ghost use Rattle.occ_types.specs.declared.kind.KeyKind.TheVariants as key_kinds;
ghost use Rattle.occ_types.specs.declared.kind.Kind.TheVariants as cell_kinds;
ghost use Rattle.occ_types.specs.Key.{Key as PlainKey};
ghost use Rattle.occ_types.specs.KeyPart.{KeyPart as PlainPart};
ghost use Rattle.occ_types.specs.Row.{Cell as PlainCell, Row as PlainRow};
ghost use Rattle.std.specs.Int.{w64, from_le_bytes, cast_unsigned, cast_signed};
ghost use Rattle.std.specs.Str.{IsUtf8};

use occ_types::{Cell, Key, KeyKind, KeyPart, Kind, PartKind, Row, Text};
use std::alloc::Allocator;

/// Why bytes are not read.
#[derive(Clone, Copy, Debug, PartialEq, Eq)]
pub enum Unread {
    /// Nothing of the kind is written so.
    Malformed,
    /// The bytes of a text are not UTF-8.
    NotUtf8,
    /// A request for memory was refused.
    Memory,
}

// The number that 8 bytes are.
#[tactic(auto, unfolding(crate::specs::Bytes::number_bytes))]
fn number_of(bytes: &[u8; 8]) -> u64
    ensures written { number_bytes result ≡ bytes.now }
    ensures read { result ≡ from_le_bytes w64 bytes.now }
{
    u64::from_le_bytes(*bytes)
}

// A number, and what stands behind it; none where there are fewer than 8 bytes.
fn take_number(bytes: &[u8]) -> Option<(u64, &[u8])>
    ensures taken { MatchOption result (length bytes.now < 8) (λ taken. bytes.now ≡ number_bytes taken.0 ++ taken.1.now) }
    ensures back { (number : ℕ) (rest : List ℕ) → number < 2 ^ 64 → bytes.now ≡ number_bytes number ++ rest → TakesBack (taken_of (λ n. n)) (number, rest) result }
{
    let (number, rest) = bytes.split_first_chunk::<8>()?;
    Some((number_of(number), rest))
}

// The bytes of a text, and what stands behind it.
fn take_bytes(bytes: &[u8]) -> Option<(&[u8], &[u8])>
    ensures taken { IfSome result (λ taken. bytes.now ≡ text_bytes taken.0.now ++ taken.1.now) }
    ensures back { (text rest : List ℕ) → bytes.now ≡ text_bytes text ++ rest → TakesBack (taken_of (λ t. t.now)) (text, rest) result }
{
    let (length, rest) = take_number(bytes)?;
    if length > rest.len() as u64 {
        return None;
    }
    rest.split_at_checked(length as usize)
}

// A text, and what stands behind it.
fn take_text<A: Allocator + Copy>(alloc: A, bytes: &[u8]) -> Result<(Text<A>, &[u8]), Unread>
    ensures taken { IfOk result (λ taken. bytes.now ≡ text_bytes taken.0 ++ taken.1.now) }
    ensures back { (text rest : List ℕ) → bytes.now ≡ text_bytes text ++ rest → ReadsBack (taken_of (λ t. t)) (text, rest) (IsUtf8 text) result }
{
    let Some((text, rest)) = take_bytes(bytes) else {
        return Err(Unread::Malformed);
    };
    let Ok(text) = str::from_utf8(text) else {
        return Err(Unread::NotUtf8);
    };
    match Text::new(alloc, text) {
        Ok(text) => Ok((text, rest)),
        Err(_) => Err(Unread::Memory),
    }
}

// One part of a key of two, and what stands behind it.
fn take_part<A: Allocator + Copy>(
    alloc: A,
    kind: PartKind,
    bytes: &[u8],
) -> Result<(KeyPart<A>, &[u8]), Unread>
    ensures taken { IfOk result (λ taken. bytes.now ≡ part_bytes (part_of taken.0) ++ taken.1.now) }
    ensures kind { IfOk result (λ taken. IsPart kind (part_of taken.0)) }
    ensures back { (part : PlainPart) (rest : List ℕ) → IsPart kind part → bytes.now ≡ part_bytes part ++ rest → ReadsBack (taken_of (λ p. part_of p)) (part, rest) (IsUtf8Part part) result }
{
    match kind {
        PartKind::Num => match take_number(bytes) {
            Some((number, rest)) => Ok((KeyPart::Num(number), rest)),
            None => Err(Unread::Malformed),
        },
        PartKind::Text => {
            let (text, rest) = take_text(alloc, bytes)?;
            Ok((KeyPart::Text(text), rest))
        }
    }
}

// The key of two parts that all of some bytes are.
fn read_pair<A: Allocator + Copy>(
    alloc: A,
    first: PartKind,
    second: PartKind,
    bytes: &[u8],
) -> Result<Key<A>, Unread>
    ensures read { IfOk result (λ key. (bytes.now ≡ key_bytes (key_of key)) × IsKey (key_kinds.Pair first second) (key_of key)) }
    ensures back { (key : PlainKey) → IsKey (key_kinds.Pair first second) key → bytes.now ≡ key_bytes key → ReadsBack (λ k. key_of k) key (IsUtf8Key key) result }
{
    let (first, rest) = take_part(alloc, first, bytes)?;
    let (second, behind) = take_part(alloc, second, rest)?;
    if !behind.is_empty() {
        return Err(Unread::Malformed);
    }
    match Key::pair(alloc, first, second) {
        Ok(key) => Ok(key),
        Err(_) => Err(Unread::Memory),
    }
}

// The number that all of some bytes are.
fn read_number(bytes: &[u8]) -> Result<u64, Unread>
    ensures read { IfOk result (λ number. (bytes.now ≡ number_bytes number) × (number < 2 ^ 64)) }
    ensures back { (number : ℕ) → number < 2 ^ 64 → bytes.now ≡ number_bytes number → ReadsBack (λ n. n) number ⊤ result }
    ensures malformed { IsOkUnless result Malformed }
{
    match take_number(bytes) {
        Some((number, rest)) if rest.is_empty() => Ok(number),
        _ => Err(Unread::Malformed),
    }
}

// The text that all of some bytes are.
fn read_text<A: Allocator + Copy>(alloc: A, bytes: &[u8]) -> Result<Text<A>, Unread>
    ensures read { IfOk result (λ text. bytes.now ≡ text_bytes text) }
    ensures back { (text : List ℕ) → bytes.now ≡ text_bytes text → ReadsBack (λ t. t) text (IsUtf8 text) result }
{
    let (text, rest) = take_text(alloc, bytes)?;
    if !rest.is_empty() {
        return Err(Unread::Malformed);
    }
    Ok(text)
}

/// The key of a kind that all of some bytes are. `Malformed` where they are none of that kind, `NotUtf8` where what should be a text isn't
/// UTF-8, and `Memory` where there is no room for a text or a pair.
pub fn read_key<A: Allocator + Copy>(
    alloc: A,
    kind: KeyKind,
    bytes: &[u8],
) -> Result<Key<A>, Unread>
    ensures read { IfOk result (λ key. (bytes.now ≡ key_bytes (key_of key)) × IsKey kind (key_of key)) }
    ensures back { (key : PlainKey) → IsKey kind key → bytes.now ≡ key_bytes key → ReadsBack (λ k. key_of k) key (IsUtf8Key key) result }
    ensures number { kind ≡ key_kinds.Num → IsOkUnless result Malformed }
{
    match kind {
        KeyKind::Num => Ok(Key::Num(read_number(bytes)?)),
        KeyKind::Text => Ok(Key::Text(read_text(alloc, bytes)?)),
        KeyKind::Pair(first, second) => read_pair(alloc, first, second, bytes),
    }
}

/// The whole number that all of some bytes are; `Malformed` where they aren't eight.
pub fn read_int(bytes: &[u8]) -> Result<i64, Unread>
    ensures read { IfOk result (λ number. bytes.now ≡ number_bytes (cast_unsigned w64 number)) }
    ensures back { (number : ℤ) → cast_signed w64 (cast_unsigned w64 number) ≡ number → bytes.now ≡ number_bytes (cast_unsigned w64 number) → ReadsBack (λ n. n) number ⊤ result }
    ensures malformed { IsOkUnless result Malformed }
{
    let number = read_number(bytes)?;
    Ok(number.cast_signed())
}

// A cell, and what stands behind it.
fn take_cell<A: Allocator + Copy>(
    alloc: A,
    kind: Kind,
    bytes: &[u8],
) -> Result<(Cell<A>, &[u8]), Unread>
    ensures taken { IfOk result (λ taken. bytes.now ≡ cell_bytes (cell_of taken.0) ++ taken.1.now) }
    ensures kind { IfOk result (λ taken. IsCell kind (cell_of taken.0)) }
    ensures back { (cell : PlainCell) (rest : List ℕ) → IsCell kind cell → bytes.now ≡ cell_bytes cell ++ rest → ReadsBack (taken_of (λ c. cell_of c)) (cell, rest) (IsUtf8Cell cell) result }
    ensures number { kind ≡ cell_kinds.Int → IsOkUnless result Malformed }
{
    match kind {
        Kind::Int => match take_number(bytes) {
            Some((number, rest)) => Ok((Cell::Int(number.cast_signed()), rest)),
            None => Err(Unread::Malformed),
        },
        Kind::Text => {
            let (text, rest) = take_text(alloc, bytes)?;
            Ok((Cell::Text(text), rest))
        }
    }
}

/// The row of such columns that all of some bytes are. `Malformed` where they are none of these columns, `NotUtf8` where what should be a
/// text isn't UTF-8, and `Memory` where there is no room for it; a row of one number asks for none.
pub fn read_row<A: Allocator + Copy>(
    alloc: A,
    kinds: &[Kind],
    bytes: &[u8],
) -> Result<Row<A>, Unread>
    ensures read { IfOk result (λ row. (bytes.now ≡ row_bytes row) × IsRow kinds.now row) }
    ensures back { (row : PlainRow) → IsRow kinds.now row → bytes.now ≡ row_bytes row → ReadsBack (λ r. r) row (IsUtf8Row row) result }
    ensures number { kinds.now ≡ cell_kinds.Int ∷ [] → IsOkUnless result Malformed }
{
    if kinds.len() == 1 {
        let (cell, rest) = take_cell(alloc, kinds[0], bytes)?;
        if !rest.is_empty() {
            return Err(Unread::Malformed);
        }
        return Ok(Row::from_cell(cell));
    }
    let cells = read_cells(alloc, kinds, bytes)?;
    match Row::from_cells(cells) {
        Ok(row) => Ok(row),
        Err(_) => Err(Unread::Memory),
    }
}

// The cells of such columns that all of some bytes are.
fn read_cells<A: Allocator + Copy>(
    alloc: A,
    kinds: &[Kind],
    bytes: &[u8],
) -> Result<Vec<Cell<A>, A>, Unread>
    ensures read { IfOk result (λ cells. (bytes.now ≡ row_bytes (row_of cells.items)) × IsRow kinds.now (row_of cells.items)) }
    ensures back { (row : PlainRow) → IsRow kinds.now row → bytes.now ≡ row_bytes row → ReadsBack (λ cells. row_of cells.items) row (IsUtf8Row row) result }
{
    let Ok(mut cells) = Vec::with_capacity(alloc, kinds.len()) else {
        return Err(Unread::Memory);
    };
    let mut rest = bytes;
    for kind in kinds {
        rest = take_next(alloc, *kind, &mut cells, rest)?;
    }
    if !rest.is_empty() {
        return Err(Unread::Malformed);
    }
    Ok(cells)
}

// Puts a cell behind others.
fn push<A: Allocator>(cells: &mut Vec<Cell<A>, A>, cell: Cell<A>) -> Result<(), Unread>
    ensures pushed { OnOk result (cells.new.items ≡ cells.old.items ++ cell ∷ []) }
    ensures memory { IsOkUnless result Memory }
{
    match cells.push(cell) {
        Ok(()) => Ok(()),
        Err(_) => Err(Unread::Memory),
    }
}

// Puts the next cell behind those that were read, and answers what stands behind it.
fn take_next<'a, A: Allocator + Copy>(
    alloc: A,
    kind: Kind,
    cells: &mut Vec<Cell<A>, A>,
    bytes: &'a [u8],
) -> Result<&'a [u8], Unread>
    ensures taken { IfOk result (λ rest. row_bytes (row_of cells.old.items) ++ bytes.now ≡ row_bytes (row_of cells.new.items) ++ rest.now) }
    ensures kind { IfOk result (λ rest. IsPushed kind (row_of cells.old.items) (row_of cells.new.items)) }
    ensures back { (cell : PlainCell) (rest : List ℕ) → IsCell kind cell → bytes.now ≡ cell_bytes cell ++ rest → ReadsBack {X = PlainRow × List ℕ} (λ left. (row_of cells.new.items, left.now)) (row_of cells.old.items ++ cell ∷ [], rest) (IsUtf8Cell cell) result }
{
    let (cell, rest) = take_cell(alloc, kind, bytes)?;
    push(cells, cell)?;
    Ok(rest)
}
