//! Keys of a row, and their one total order.
ghost use Rattle.std.specs.Prelude.{◌≡◌, List, ◌++◌, Some, IfOk, MatchResult, refl};
ghost use Rattle.std.specs.Ordering.{on, eq_by_cmp, as_partial_cmp};
ghost use Rattle.std.specs.Cmp.{on_per, on_equiv, on_total, on_po, po, eq_by_cmp_equiv, partial_equiv_from_equiv};
ghost use Rattle.occ_types.specs.Key.{Num, Text as PlainText, Pair as PlainPair, key_cmp, key_cmp_total};
ghost use Rattle.occ_types.specs.Same.{key_same, key_same_equiv, key_po, key_fed, key_fed_alike};
ghost use Rattle.occ_types.specs.declared.fault.Fault.TheVariants.{Memory};
ghost use Rattle.occ_types.specs.After.{key_after};
ghost use Rattle.occ_types.specs.PlainData.{key_of, part_of};
ghost use Rattle.occ_types.specs.Spelling.{key_text};

use crate::fault::Refused;
use crate::key_parts::KeyPart;
use crate::pairs::Pair;
use crate::texts::Text;
use std::alloc::{AllocError, Allocator};
use std::cmp::Ordering;
use std::fmt;
use std::hash::{Hash, Hasher};

/// The key of a row. Numbers come by size, texts by their bytes, and pairs by their first part and then by the second; every
/// number comes before every text, and every text before every pair. `Display` writes it as the text formats do.
#[derive(Drop)]
#[derive_where(Debug)]
pub enum Key<A: Allocator> {
    /// A number of 64 bits, without a sign.
    Num(u64),
    /// A text.
    Text(Text<A>),
    /// Two parts, as an account and a number within it.
    Pair(Pair<A>),
}

impl<A: Allocator> From<u64> for Key<A> {
    ghost from_gives = { λ number key. key_of key ≡ Num number };

    fn from(number: u64) -> Key<A> {
        Key::Num(number)
    }
}

impl<A: Allocator> Key<A> {
    /// The key of two parts. Refused with `Memory`, and the parts handed back, where there is no memory for it.
    pub fn pair(
        alloc: A,
        first: KeyPart<A>,
        second: KeyPart<A>,
    ) -> Result<Key<A>, Refused<(KeyPart<A>, KeyPart<A>)>>
        ensures { MatchResult result
            (λ key. key_of key ≡ PlainPair (part_of first) (part_of second))
            (λ refused. (refused.fault ≡ Memory) × (refused.value.0 ≡ first) × (refused.value.1 ≡ second)) }
    {
        match Pair::new(alloc, first, second) {
            Ok(pair) => Ok(Key::Pair(pair)),
            Err(refused) => Err(refused),
        }
    }
}

impl<A: Allocator + Clone> Key<A> {
    /// The key of a text; an error where there is no memory for it.
    pub fn text(alloc: A, text: &str) -> Result<Key<A>, AllocError>
        ensures { IfOk result (λ key. key_of key ≡ PlainText text.now) }
    {
        Ok(Key::Text(Text::new(alloc, text)?))
    }

    /// The next key in the order of all keys: the next number, the empty text behind the last number, a text with a byte 0 at its
    /// end, and of two parts the first one with the next of the second one. No key lies between the two
    /// (`laws::no_key_lies_between`). An error where there is no memory for it.
    pub fn after(&self, alloc: A) -> Result<Key<A>, AllocError>
        ensures { IfOk result (λ next. key_of next ≡ key_after (key_of self.now)) }
    {
        match self {
            Key::Num(number) if *number < u64::MAX => Ok(Key::Num(*number + 1)),
            Key::Num(_) => Ok(Key::Text(Text::new(alloc, "")?)),
            Key::Text(text) => Ok(Key::Text(text.after(alloc)?)),
            Key::Pair(pair) => Ok(Key::Pair(pair.after(alloc)?)),
        }
    }
}

impl<A: Allocator> Clone for Key<A> {
    ghost is_clone = { λ source copy. copy ≡ source };

    fn clone(&self) -> Result<Key<A>, AllocError> {
        match self {
            Key::Num(number) => Ok(Key::Num(*number)),
            Key::Text(text) => Ok(Key::Text(text.clone()?)),
            Key::Pair(pair) => Ok(Key::Pair(pair.clone()?)),
        }
    }
}

impl<A: Allocator> fmt::Display for Key<A> {
    ghost output = { λ key. Some (key_text (key_of key)) };

    fn fmt<W: fmt::Write>(&self, f: &mut fmt::Formatter<W>) -> fmt::Result {
        match self {
            Key::Num(number) => f.write(*number),
            Key::Text(text) => f.write(text),
            Key::Pair(pair) => f.write(pair),
        }
    }
}

impl<A: Allocator> PartialEq for Key<A> {
    ghost eq = { on key_of key_same };

    ghost laws = { on_per key_of (partial_equiv_from_equiv key_same_equiv) };

    fn eq(&self, other: &Key<A>) -> bool {
        match (self, other) {
            (Key::Num(number), Key::Num(another)) => number == another,
            (Key::Text(text), Key::Text(another)) => text == another,
            (Key::Pair(pair), Key::Pair(another)) => pair == another,
            _ => false,
        }
    }
}

impl<A: Allocator> Eq for Key<A> {
    ghost laws = { on_equiv key_of key_same_equiv };
}

impl<A: Allocator> PartialOrd for Key<A> {
    ghost partial_cmp = { as_partial_cmp (on key_of key_cmp) };

    ghost laws = { on_po key_of key_po };

    fn partial_cmp(&self, other: &Key<A>) -> Option<Ordering> {
        Some(self.cmp(other))
    }
}

impl<A: Allocator> Ord for Key<A> {
    ghost cmp = { on key_of key_cmp };

    ghost total = { on_total key_of key_cmp_total };

    ghost matches_partial_cmp = { λ a b. refl };

    ghost matches_eq = { λ a b. refl };

    fn cmp(&self, other: &Key<A>) -> Ordering {
        match (self, other) {
            (Key::Num(number), Key::Num(another)) => number.cmp(another),
            (Key::Text(text), Key::Text(another)) => text.cmp(another),
            (Key::Pair(pair), Key::Pair(another)) => pair.cmp(another),
            (Key::Num(_), _) | (Key::Text(_), Key::Pair(_)) => Ordering::Less,
            (Key::Text(_), Key::Num(_)) | (Key::Pair(_), _) => Ordering::Greater,
        }
    }
}

impl<A: Allocator> Hash for Key<A> {
    ghost hash_input = { λ key. key_fed (key_of key) };

    ghost respects_eq = { λ a b. key_fed_alike (key_of a) (key_of b) };

    fn hash<H: Hasher>(&self, state: &mut H) {
        match self {
            Key::Num(number) => {
                0u8.hash(state);
                number.hash(state);
            }
            Key::Text(text) => {
                1u8.hash(state);
                text.hash(state);
            }
            Key::Pair(pair) => {
                2u8.hash(state);
                pair.hash(state);
            }
        }
    }
}
