//! The range of the keys of two parts that have the same first part.
ghost use Rattle.std.specs.Prelude.{◌≡◌, ◌⊎◌, Option, None, Some, IfOk, IfErr, MatchResult};
ghost use Rattle.std.specs.Result.{result_err};
ghost use Rattle.occ_types.specs.declared.fault.Fault.TheVariants.{Memory};
ghost use Rattle.occ_types.specs.Prefix.{least_part, second_kind, begins_keys, is_longest, check_prefix_in, prefix_lower, prefix_upper};
ghost use Rattle.occ_types.specs.Key.{Pair as PlainPair};
ghost use Rattle.occ_types.specs.PlainData.{part_of, key_of, end_of, table_of};

use crate::fault::Fault;
use crate::key_parts::KeyPart;
use crate::keys::Key;
use crate::kind::{KeyKind, PartKind};
use crate::limits::MAX_KEY_BYTES;
use crate::tables::{TableDef, part_has_kind};
use std::alloc::{AllocError, Allocator};

/// The ends of a range of a table with keys of two parts: all keys with the same first part, and no others.
#[derive(Drop)]
#[derive_where(Debug)]
pub struct Prefix<A: Allocator> {
    /// The lower end: the first part with the least second one.
    pub lower: Key<A>,
    /// The upper end: the next part with the least second one. None where the first part is the last number, behind which the table
    /// has no key.
    pub upper: Option<Key<A>>,
}

impl<A: Allocator> TableDef<A> {
    /// Whether the keys that begin with a part have a range: `WrongKind` where no key of the table begins so, or else `TooLong` where
    /// the part is a text of 64 bytes or more, since the text behind it could be no end.
    pub fn check_prefix(&self, first: &KeyPart<A>) -> Result<(), Fault>
        ensures { result_err result ≡ check_prefix_in (table_of self.now) (part_of first.now) }
    {
        if !begins_keys(self.key, first) {
            return Err(Fault::WrongKind);
        }
        if is_longest(first) {
            return Err(Fault::TooLong);
        }
        Ok(())
    }
}

impl<A: Allocator + Clone> TableDef<A> {
    /// The range of the keys that begin with a part, which is one of the table (`laws::a_prefix_is_a_range`). Refused as
    /// `check_prefix` says, or else with `Memory` where there is none for the ends.
    pub fn prefix(&self, alloc: A, first: &KeyPart<A>) -> Result<Prefix<A>, Fault>
        ensures { MatchResult result
            (λ prefix. (check_prefix_in (table_of self.now) (part_of first.now) ≡ None)
            × (key_of prefix.lower ≡ prefix_lower self.now.key (part_of first.now))
            × (end_of prefix.upper ≡ prefix_upper self.now.key (part_of first.now)))
            (λ fault. (check_prefix_in (table_of self.now) (part_of first.now) ≡ Some fault)
            ⊎ (check_prefix_in (table_of self.now) (part_of first.now) ≡ None) × (fault ≡ Memory)) }
    {
        self.check_prefix(first)?;
        let kind = second_kind(self.key);
        let lower = begin(alloc.clone()?, first.clone()?, kind)?;
        let upper = behind(alloc, first, self.key)?;
        Ok(Prefix { lower, upper })
    }
}

// Whether a part may be the first one of a key.
fn begins_keys<A: Allocator>(kind: KeyKind, part: &KeyPart<A>) -> bool
    ensures { result ≡ begins_keys kind (part_of part.now) }
{
    match kind {
        KeyKind::Num | KeyKind::Text => false,
        KeyKind::Pair(first, _) => part_has_kind(first, part),
    }
}

// Whether the next part is over the limit.
fn is_longest<A: Allocator>(part: &KeyPart<A>) -> bool
    ensures { result ≡ is_longest (part_of part.now) }
{
    match part {
        KeyPart::Num(_) => false,
        KeyPart::Text(text) => MAX_KEY_BYTES <= text.len(),
    }
}

// The kind of the second parts; any where a key is no pair.
fn second_kind(kind: KeyKind) -> PartKind
    ensures { result ≡ second_kind kind }
{
    match kind {
        KeyKind::Num | KeyKind::Text => PartKind::Num,
        KeyKind::Pair(_, second) => second,
    }
}

// The least part of a kind.
fn least_part<A: Allocator + Clone>(alloc: A, kind: PartKind) -> Result<KeyPart<A>, AllocError>
    ensures { IfOk result (λ part. part_of part ≡ least_part kind) }
{
    match kind {
        PartKind::Num => Ok(KeyPart::Num(0)),
        PartKind::Text => KeyPart::text(alloc, ""),
    }
}

// The first of the keys that begin with a part.
fn begin<A: Allocator + Clone>(alloc: A, first: KeyPart<A>, kind: PartKind) -> Result<Key<A>, Fault>
    ensures ok { IfOk result (λ key. key_of key ≡ PlainPair (part_of first) (least_part kind)) }
    ensures err { IfErr result (λ fault. fault ≡ Memory) }
{
    let least = least_part(alloc.clone()?, kind)?;
    let key = Key::pair(alloc, first, least)?;
    Ok(key)
}

// The first of the keys behind those that begin with a part; none behind the last number.
fn behind<A: Allocator + Clone>(
    alloc: A,
    first: &KeyPart<A>,
    kind: KeyKind,
) -> Result<Option<Key<A>>, Fault>
    ensures ok { IfOk result (λ upper. end_of upper ≡ prefix_upper kind (part_of first.now)) }
    ensures err { IfErr result (λ fault. fault ≡ Memory) }
{
    match first {
        KeyPart::Num(number) if *number < u64::MAX => {
            let key = begin(alloc, KeyPart::Num(*number + 1), second_kind(kind))?;
            Ok(Some(key))
        }
        KeyPart::Num(_) => Ok(None),
        KeyPart::Text(text) => {
            let next = KeyPart::Text(text.after(alloc.clone()?)?);
            let key = begin(alloc, next, second_kind(kind))?;
            Ok(Some(key))
        }
    }
}
