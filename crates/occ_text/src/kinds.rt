//! The kinds that a table's line names.

ghost use Rattle.std.specs.Prelude.{◌≡◌};
ghost use Rattle.occ_text.specs.Escapes.{Gives};
ghost use Rattle.occ_text.specs.HeaderReading.{pair_kind_of, newer_kind_of, key_kind_of, kind_of, columns_of};

use crate::separated_parts::Parts;
use crate::tokens::{Unread, is_word};
use crate::versions::Version;
use occ_types::limits::MAX_COLUMNS;
use occ_types::{KeyKind, Kind, PartKind};
use std::alloc::Allocator;

/// The kind of keys of two parts that a word names.
#[tactic(auto, unfolding(crate::specs::HeaderReading::pair_kind_of))]
fn pair_kind(word: &[u8]) -> Option<KeyKind>
    ensures { result ≡ pair_kind_of word.now }
{
    if is_word(word, "num+num") {
        Some(KeyKind::Pair(PartKind::Num, PartKind::Num))
    } else if is_word(word, "num+text") {
        Some(KeyKind::Pair(PartKind::Num, PartKind::Text))
    } else if is_word(word, "text+num") {
        Some(KeyKind::Pair(PartKind::Text, PartKind::Num))
    } else if is_word(word, "text+text") {
        Some(KeyKind::Pair(PartKind::Text, PartKind::Text))
    } else {
        None
    }
}

/// The kind of keys of two parts that a word names, which version 1 has none of.
#[tactic(auto, unfolding(crate::specs::HeaderReading::newer_kind_of))]
fn newer_kind(version: Version, word: &[u8]) -> Option<KeyKind>
    ensures { result ≡ newer_kind_of version word.now }
{
    match version {
        Version::One => None,
        Version::Two => pair_kind(word),
    }
}

/// The kind of keys that a word names.
#[tactic(auto, unfolding(crate::specs::HeaderReading::key_kind_of))]
pub(crate) fn key_kind(version: Version, word: &[u8]) -> Option<KeyKind>
    ensures { result ≡ key_kind_of version word.now }
{
    if is_word(word, "num") {
        Some(KeyKind::Num)
    } else if is_word(word, "text") {
        Some(KeyKind::Text)
    } else {
        newer_kind(version, word)
    }
}

/// The kind of cells that a word names.
#[tactic(auto, unfolding(crate::specs::HeaderReading::kind_of))]
fn kind(word: &[u8]) -> Option<Kind>
    ensures { result ≡ kind_of word.now }
{
    if is_word(word, "int") {
        Some(Kind::Int)
    } else if is_word(word, "text") {
        Some(Kind::Text)
    } else {
        None
    }
}

/// The kinds of the columns, 1 to 8.
#[tactic(auto, unfolding(crate::specs::HeaderReading::columns_of))]
pub(crate) fn columns<A: Allocator>(alloc: A, mut words: Parts<'_>) -> Result<Vec<Kind, A>, Unread>
    ensures { Gives (λ kinds. kinds.items) result (columns_of words.entry) }
{
    let mut kinds = Vec::new(alloc);
    while let Some(word) = words.take_part() {
        kinds.push(kind(word).ok_or(Unread::Malformed)?)?;
    }
    if kinds.is_empty() || kinds.len() > MAX_COLUMNS {
        return Err(Unread::Malformed);
    }
    Ok(kinds)
}
