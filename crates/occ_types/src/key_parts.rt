//! Parts of a key of two parts, and their one total order.
ghost use Rattle.std.specs.Prelude.{◌≡◌, List, ◌++◌, Some, IfOk, refl};
ghost use Rattle.std.specs.Ordering.{on, eq_by_cmp, as_partial_cmp};
ghost use Rattle.std.specs.Cmp.{on_per, on_equiv, on_total, on_po, po, eq_by_cmp_equiv, partial_equiv_from_equiv};
ghost use Rattle.occ_types.specs.KeyPart.{Num, Text as PlainText, part_cmp, part_cmp_total};
ghost use Rattle.occ_types.specs.Same.{part_same, part_same_equiv, part_po, part_fed, part_fed_alike};
ghost use Rattle.occ_types.specs.After.{part_after};
ghost use Rattle.occ_types.specs.PlainData.{part_of};
ghost use Rattle.occ_types.specs.Spelling.{part_text};

use crate::texts::Text;
use std::alloc::{AllocError, Allocator};
use std::cmp::Ordering;
use std::fmt;
use std::hash::{Hash, Hasher};

/// One part of a key of two parts. Numbers come by size, texts by their bytes, and every number comes before every text.
/// `Display` writes it as the text formats do.
#[derive(Drop)]
#[derive_where(Debug)]
pub enum KeyPart<A: Allocator> {
    /// A number of 64 bits, without a sign.
    Num(u64),
    /// A text.
    Text(Text<A>),
}

impl<A: Allocator> From<u64> for KeyPart<A> {
    ghost from_gives = { λ number part. part_of part ≡ Num number };

    fn from(number: u64) -> KeyPart<A> {
        KeyPart::Num(number)
    }
}

impl<A: Allocator + Clone> KeyPart<A> {
    /// The part of a text; an error where there is no memory for it.
    pub fn text(alloc: A, text: &str) -> Result<KeyPart<A>, AllocError>
        ensures { IfOk result (λ part. part_of part ≡ PlainText text.now) }
    {
        Ok(KeyPart::Text(Text::new(alloc, text)?))
    }

    /// The next part in the order of parts: the next number, the empty text behind the last number, and a text with a byte 0 at its
    /// end. No part lies between the two. An error where there is no memory for it.
    pub fn after(&self, alloc: A) -> Result<KeyPart<A>, AllocError>
        ensures { IfOk result (λ next. part_of next ≡ part_after (part_of self.now)) }
    {
        match self {
            KeyPart::Num(number) if *number < u64::MAX => Ok(KeyPart::Num(*number + 1)),
            KeyPart::Num(_) => Ok(KeyPart::Text(Text::new(alloc, "")?)),
            KeyPart::Text(text) => Ok(KeyPart::Text(text.after(alloc)?)),
        }
    }
}

impl<A: Allocator> Clone for KeyPart<A> {
    ghost is_clone = { λ source copy. copy ≡ source };

    fn clone(&self) -> Result<KeyPart<A>, AllocError> {
        match self {
            KeyPart::Num(number) => Ok(KeyPart::Num(*number)),
            KeyPart::Text(text) => Ok(KeyPart::Text(text.clone()?)),
        }
    }
}

impl<A: Allocator> fmt::Display for KeyPart<A> {
    ghost output = { λ part. Some (part_text (part_of part)) };

    fn fmt<W: fmt::Write>(&self, f: &mut fmt::Formatter<W>) -> fmt::Result {
        match self {
            KeyPart::Num(number) => f.write(*number),
            KeyPart::Text(text) => f.write(text),
        }
    }
}

impl<A: Allocator> PartialEq for KeyPart<A> {
    ghost eq = { on part_of part_same };

    ghost laws = { on_per part_of (partial_equiv_from_equiv part_same_equiv) };

    fn eq(&self, other: &KeyPart<A>) -> bool {
        match (self, other) {
            (KeyPart::Num(number), KeyPart::Num(another)) => number == another,
            (KeyPart::Text(text), KeyPart::Text(another)) => text == another,
            _ => false,
        }
    }
}

impl<A: Allocator> Eq for KeyPart<A> {
    ghost laws = { on_equiv part_of part_same_equiv };
}

impl<A: Allocator> PartialOrd for KeyPart<A> {
    ghost partial_cmp = { as_partial_cmp (on part_of part_cmp) };

    ghost laws = { on_po part_of part_po };

    fn partial_cmp(&self, other: &KeyPart<A>) -> Option<Ordering> {
        Some(self.cmp(other))
    }
}

impl<A: Allocator> Ord for KeyPart<A> {
    ghost cmp = { on part_of part_cmp };

    ghost total = { on_total part_of part_cmp_total };

    ghost matches_partial_cmp = { λ a b. refl };

    ghost matches_eq = { λ a b. refl };

    fn cmp(&self, other: &KeyPart<A>) -> Ordering {
        match (self, other) {
            (KeyPart::Num(number), KeyPart::Num(another)) => number.cmp(another),
            (KeyPart::Num(_), KeyPart::Text(_)) => Ordering::Less,
            (KeyPart::Text(_), KeyPart::Num(_)) => Ordering::Greater,
            (KeyPart::Text(text), KeyPart::Text(another)) => text.cmp(another),
        }
    }
}

impl<A: Allocator> Hash for KeyPart<A> {
    ghost hash_input = { λ part. part_fed (part_of part) };

    ghost respects_eq = { λ a b. part_fed_alike (part_of a) (part_of b) };

    fn hash<H: Hasher>(&self, state: &mut H) {
        match self {
            KeyPart::Num(number) => {
                0u8.hash(state);
                number.hash(state);
            }
            KeyPart::Text(text) => {
                1u8.hash(state);
                text.hash(state);
            }
        }
    }
}
