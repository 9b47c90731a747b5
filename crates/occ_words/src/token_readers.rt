//! Whether a token is what a field has to be, by the readers of the texts themselves.

use crate::line_forms::Field;
use occ_text::operation_reading::read_operation;
use occ_text::texts::{end, key, row};
use occ_text::tokens::{Unread, is_word, name, number};
use occ_text::versions::Version;
use std::alloc::{AllocError, Global};

// Whether something was read. A want of memory is told.
fn is_read<T: Drop>(read: Result<T, Unread>) -> Result<bool, AllocError> {
    match read {
        Ok(_) => Ok(true),
        Err(Unread::Malformed) => Ok(false),
        Err(Unread::Memory) => Err(AllocError),
    }
}

/// Whether a token is what a field has to be in a text of this version.
pub fn reads(
    alloc: Global,
    version: Version,
    field: Field,
    token: &[u8],
) -> Result<bool, AllocError> {
    match field {
        Field::Key => is_read(key(alloc, version, token)),
        Field::End => is_read(end(alloc, version, token)),
        Field::Found if is_word(token, "none") => Ok(true),
        Field::Found | Field::Row => is_read(row(alloc, token)),
        Field::Operation => is_read(read_operation(alloc, version, token)),
        field => Ok(reads_plain(version, field, token)),
    }
}

// The same of fields that take no memory.
fn reads_plain(version: Version, field: Field, token: &[u8]) -> bool {
    match field {
        Field::Whole(least, most) => matches!(number(token, most), Some(found) if found >= least),
        Field::Name => name(token).is_some(),
        Field::Words(words) => is_among(words, token),
        Field::KeyKind => is_key_kind(version, token),
        Field::Standing => {
            is_among(&["open", "writing", "done", "conflict", "tooold"], token)
                || number(token, u64::MAX).is_some()
        }
        _ => false,
    }
}

fn is_among(words: &[&str], token: &[u8]) -> bool {
    words.iter().any(|word| is_word(token, *word))
}

fn is_key_kind(version: Version, token: &[u8]) -> bool {
    let pairs = ["num+num", "num+text", "text+num", "text+text"];
    is_among(&["num", "text"], token) || (version == Version::Two && is_among(&pairs, token))
}
