//! The rows of a table, one after another.
ghost use Rattle.std.specs.Prelude.{◌≡◌};
ghost use Rattle.std.specs.Iterator.{YieldsFirstBy, item_count};
ghost use Rattle.occ_book.specs.KeyRefs.{key_lent};
ghost use Rattle.occ_book.specs.Table.{rows_in};

use crate::key_refs::KeyRef;
use occ_pages::Range;
use occ_types::{Key, Row};
use std::alloc::Allocator;
use std::collections::btree_map::Iter;
use std::marker::Model;

/// The rows of a table that are left, in the order of their keys, seen as the list of them under their keys.
#[derive(Drop)]
pub struct TableRows<'a, A: Allocator> {
    numbers: Range<'a, Row<A>, A>,
    others: Iter<'a, Key<A>, Row<A>>,
}

impl<'a, A: Allocator> Model for TableRows<'a, A> {
    ghost use Rattle.std.specs.Prelude.{List};
    ghost use Rattle.std.specs.Coded.{coded×, coded_list};
    ghost use Rattle.occ_types.specs.Key.{Key as PlainKey};
    ghost use Rattle.occ_types.specs.Row.{Row as PlainRow};
    ghost use Rattle.occ_types.specs.Codes.{key_code, cell_code};

    ghost Value = { List (PlainKey × PlainRow) };

    ghost coded = { coded_list (coded× key_code (coded_list cell_code)) };

    ghost use Rattle.occ_book.specs.Table.{rows_in};

    ghost view = { λ rows. rows_in rows.numbers rows.others };
}

impl<'a, A: Allocator> TableRows<'a, A> {
    // The rows under numbers, and then the others.
    pub(crate) fn new(
        numbers: Range<'a, Row<A>, A>,
        others: Iter<'a, Key<A>, Row<A>>,
    ) -> TableRows<'a, A>
        ensures { result ≡ rows_in numbers.entry others.entry }
    {
        TableRows { numbers, others }
    }
}

impl<'a, A: Allocator> Iterator for TableRows<'a, A> {
    type Item = (KeyRef<'a, A>, &'a Row<A>);

    ghost next_gives = { YieldsFirstBy (λ item. (key_lent item.0, item.1.now)) (λ rest. rest) };

    ghost remaining = { item_count (λ rest. rest) };

    fn next(&mut self) -> Option<(KeyRef<'a, A>, &'a Row<A>)> {
        if let Some((number, row)) = self.numbers.next() {
            return Some((KeyRef::Num(number), row));
        }
        let Some((key, row)) = self.others.next() else {
            return None;
        };
        Some((KeyRef::Other(key), row))
    }
}
