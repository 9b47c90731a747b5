//! Keys as a table lends them.
ghost use Rattle.std.specs.Prelude.{◌≡◌, IfOk, refl};
ghost use Rattle.std.specs.Ordering.{on, as_partial_cmp};
ghost use Rattle.std.specs.Cmp.{on_per, on_equiv, on_total, on_po, partial_equiv_from_equiv};
ghost use Rattle.occ_types.specs.Key.{Num, key_cmp, key_cmp_total};
ghost use Rattle.occ_types.specs.PlainData.{key_of};
ghost use Rattle.occ_types.specs.Same.{key_same, key_same_equiv, key_po};
ghost use Rattle.occ_book.specs.KeyRefs.{key_lent};

use occ_types::Key;
use std::alloc::{AllocError, Allocator};
use std::cmp::Ordering;

/// A key that is lent: a number itself, and another key by a reference. They stand in the order of the keys.
#[derive_where(Clone, Copy, Debug)]
pub enum KeyRef<'a, A: Allocator> {
    /// A number.
    Num(u64),
    /// Another key, as a text.
    Other(&'a Key<A>),
}

impl<'a, A: Allocator> KeyRef<'a, A> {
    /// A key, lent.
    pub fn of(key: &'a Key<A>) -> KeyRef<'a, A>
        ensures { key_lent result ≡ key_of key.now }
    {
        match key {
            Key::Num(number) => KeyRef::Num(*number),
            Key::Text(_) => KeyRef::Other(key),
            Key::Pair(_) => KeyRef::Other(key),
        }
    }

    /// A key of one's own. A text shares its bytes with the key that is lent, so that it takes no memory.
    pub fn to_key(&self) -> Result<Key<A>, AllocError>
        ensures { IfOk result (λ key. key_of key ≡ key_lent self.now) }
    {
        match self {
            KeyRef::Num(number) => Ok(Key::Num(*number)),
            KeyRef::Other(key) => Ok(Key::clone(key)?),
        }
    }
}

impl<'a, A: Allocator> PartialEq for KeyRef<'a, A> {
    ghost eq = { on key_lent key_same };

    ghost laws = { on_per key_lent (partial_equiv_from_equiv key_same_equiv) };

    fn eq(&self, other: &KeyRef<'a, A>) -> bool {
        match (self, other) {
            (KeyRef::Num(number), KeyRef::Num(another)) => number == another,
            (KeyRef::Num(number), KeyRef::Other(key)) => is_number(key, *number),
            (KeyRef::Other(key), KeyRef::Num(number)) => is_number(key, *number),
            (KeyRef::Other(key), KeyRef::Other(another)) => **key == **another,
        }
    }
}

impl<'a, A: Allocator> Eq for KeyRef<'a, A> {
    ghost laws = { on_equiv key_lent key_same_equiv };
}

impl<'a, A: Allocator> PartialOrd for KeyRef<'a, A> {
    ghost partial_cmp = { as_partial_cmp (on key_lent key_cmp) };

    ghost laws = { on_po key_lent key_po };

    fn partial_cmp(&self, other: &KeyRef<'a, A>) -> Option<Ordering> {
        Some(self.cmp(other))
    }
}

impl<'a, A: Allocator> Ord for KeyRef<'a, A> {
    ghost cmp = { on key_lent key_cmp };

    ghost total = { on_total key_lent key_cmp_total };

    ghost matches_partial_cmp = { λ a b. refl };

    ghost matches_eq = { λ a b. refl };

    fn cmp(&self, other: &KeyRef<'a, A>) -> Ordering {
        match (self, other) {
            (KeyRef::Num(number), KeyRef::Num(another)) => number.cmp(another),
            (KeyRef::Num(number), KeyRef::Other(key)) => compare_number(*number, key),
            (KeyRef::Other(key), KeyRef::Num(number)) => compare_number(*number, key).reverse(),
            (KeyRef::Other(key), KeyRef::Other(another)) => (**key).cmp(*another),
        }
    }
}

// Whether a key is this number.
fn is_number<A: Allocator>(key: &Key<A>, number: u64) -> bool
    ensures number { result ≡ key_same (Num number) (key_of key.now) }
    ensures key { result ≡ key_same (key_of key.now) (Num number) }
{
    match key {
        Key::Num(another) => number == *another,
        Key::Text(_) => false,
        Key::Pair(_) => false,
    }
}

// How a number stands to a key.
fn compare_number<A: Allocator>(number: u64, key: &Key<A>) -> Ordering
    ensures { result ≡ key_cmp (Num number) (key_of key.now) }
{
    match key {
        Key::Num(another) => number.cmp(another),
        Key::Text(_) => Ordering::Less,
        Key::Pair(_) => Ordering::Less,
    }
}
