//! The laws of the order of keys. Each function computes nothing: its contract is the law, and the check proves it.
ghost use Rattle.std.specs.Prelude.{◌≡◌, true};
ghost use Rattle.occ_types.specs.After.{NoKeyBetween, has_64_bits, part_has_64_bits};
ghost use Rattle.occ_types.specs.Prefix.{PrefixIsRange, PrefixFits};
ghost use Rattle.occ_types.specs.PlainData.{key_of, part_of};

use crate::key_parts::KeyPart;
use crate::keys::Key;
use std::alloc::Allocator;

/// The keys behind a key are those from the next one on: no key lies between the two.
pub fn no_key_lies_between()
    ensures { NoKeyBetween }
{}

/// Of the keys that a table may have, those between the ends of a prefix are those that begin with its part.
pub fn a_prefix_is_a_range()
    ensures { PrefixIsRange }
{}

/// The ends of a prefix fit its table as a range.
pub fn a_prefix_fits_its_table()
    ensures { PrefixFits }
{}

/// Each number of a key has 64 bits, as the laws ask of a key.
pub fn numbers_have_64_bits<A: Allocator>(key: &Key<A>)
    ensures { has_64_bits (key_of key.now) ≡ true }
{
    match key {
        Key::Num(number) => {
            let _number = *number;
        }
        Key::Text(_) => {}
        Key::Pair(pair) => {
            numbers_of_part_have_64_bits(pair.first());
            numbers_of_part_have_64_bits(pair.second());
        }
    }
}

// A number that is a part of a key has 64 bits.
fn numbers_of_part_have_64_bits<A: Allocator>(part: &KeyPart<A>)
    ensures { part_has_64_bits (part_of part.now) ≡ true }
{
    match part {
        KeyPart::Num(number) => {
            let _number = *number;
        }
        KeyPart::Text(_) => {}
    }
}
