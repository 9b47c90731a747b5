//! The tables of a store, and the checks of keys, rows and questions against them.
ghost use Rattle.std.specs.Prelude.{◌≡◌, ◌⊎◌, ℕ, length, map, Option, None, Some, IfOk, IfSome, IfErr, MatchResult, slice_get};
ghost use Rattle.std.specs.List.{position};
ghost use Rattle.std.specs.Option.{option_copied};
ghost use Rattle.std.specs.Result.{result_err};
ghost use Rattle.occ_types.specs.Schema.{check_tables, are_tables, check_key, check_row, check_question, check_range, is_empty_range, has_name};
ghost use Rattle.occ_types.specs.Question.{Span};
ghost use Rattle.occ_types.specs.declared.fault.Fault.TheVariants.{NoTable, Memory};
ghost use Rattle.occ_types.specs.Prefix.{check_prefix, check_prefix_in, IsPrefix};
ghost use Rattle.occ_types.specs.PlainData.{named_table, part_of, key_of, end_of, question_of, table_of, tables_of};

use crate::fault::{Fault, Refused};
use crate::key_parts::KeyPart;
use crate::keys::Key;
use crate::kind::{KeyKind, Kind};
use crate::limits::MAX_TABLES;
use crate::prefixes::Prefix;
use crate::questions::Question;
use crate::rows::Row;
use crate::tables::TableDef;
use crate::texts::Text;
use std::alloc::{AllocError, Allocator};
use std::marker::Model;

/// The tables of a store, 1 to 32 with names of their own, which are named by their places. Clauses see the list of the plain tables.
/// A clone is in memory of its own, of the same allocator.
#[derive(Drop)]
#[derive_where(Debug)]
pub struct Schema<A: Allocator> {
    tables: Vec<TableDef<A>, A>,
}

impl<A: Allocator> Model for Schema<A> {
    ghost use Rattle.std.specs.Prelude.{◌≡◌, None};
    ghost use Rattle.occ_types.specs.Schema.{Schema as Tables, check_tables};

    ghost Value = { Tables };

    ghost use Rattle.occ_types.specs.PlainData.{tables_of};

    ghost view = { λ schema. tables_of schema.tables.items };

    ghost invariant = { λ schema. check_tables (tables_of schema.tables.items) ≡ None };
}

impl<A: Allocator> Schema<A> {
    /// The schema of some tables, which takes no memory. Refused with `BadSchema`, and the tables handed back, where there are not 1 to 32 of them, a name is not 1 to 16 letters a to z or stands twice, or a table has not 1 to 8 columns.
    pub fn new(tables: Vec<TableDef<A>, A>) -> Result<Schema<A>, Refused<Vec<TableDef<A>, A>>>
        ensures { MatchResult result
            (λ schema. (check_tables (tables_of tables.items) ≡ None) × (schema ≡ tables_of tables.items))
            (λ refused. (check_tables (tables_of tables.items) ≡ Some refused.fault) × (refused.value ≡ tables)) }
    {
        if tables.is_empty() || tables.len() > MAX_TABLES || !are_tables(tables.as_slice()) {
            return Err(Refused {
                value: tables,
                fault: Fault::BadSchema,
            });
        }
        Ok(Schema { tables })
    }

    /// The tables, each at its place.
    pub fn tables(&self) -> &[TableDef<A>]
        ensures value { tables_of result.now ≡ self.now }
        ensures fits { check_tables self.now ≡ None }
    {
        self.tables.as_slice()
    }

    /// The place of the table with this name; none where no table has it.
    pub fn place(&self, name: &str) -> Option<usize>
        ensures { result ≡ position (has_name name.now) self.now }
    {
        let tables = self.tables.as_slice();
        for (place, table) in tables.iter().enumerate() {
            if table.name.as_str() == name {
                return Some(place);
            }
        }
        None
    }

    // The table at a place; `NoTable` where there is none.
    fn table_at(&self, place: usize) -> Result<&TableDef<A>, Fault>
        ensures { MatchResult result
            (λ table. slice_get self.now place ≡ Some (table_of table.now))
            (λ fault. (slice_get self.now place ≡ None) × (fault ≡ NoTable)) }
    {
        self.tables.as_slice().get(place).ok_or(Fault::NoTable)
    }

    /// Whether a key fits the table at a place: `NoTable`, `WrongKind` or `TooLong`, the first of these that holds.
    pub fn check_key(&self, table: usize, key: &Key<A>) -> Result<(), Fault>
        ensures { result_err result ≡ check_key self.now table (key_of key.now) }
    {
        self.table_at(table)?.check_key(key)
    }

    /// Whether a row fits the table at a place: `NoTable`, `WrongColumns`, or the first fault of a cell, `WrongKind` or `TooLong`.
    pub fn check_row(&self, table: usize, row: &Row<A>) -> Result<(), Fault>
        ensures { result_err result ≡ check_row self.now table row.now }
    {
        self.table_at(table)?.check_row(row)
    }

    /// Whether a question fits the schema: `NoTable`, the first fault of a key or an end, or `EmptyRange` where the lower end is not below the upper one.
    pub fn check_question(&self, question: &Question<A>) -> Result<(), Fault>
        ensures { result_err result ≡ check_question self.now (question_of question.now) }
    {
        match question {
            Question::One(object) => self.check_key(object.table, &object.key),
            Question::Span {
                table,
                lower,
                upper,
            } => self.check_range(*table, lower.as_ref(), upper.as_ref()),
        }
    }

    /// Whether the question for a range fits the schema, as `check_question` has it.
    pub fn check_range(
        &self,
        table: usize,
        lower: Option<&Key<A>>,
        upper: Option<&Key<A>>,
    ) -> Result<(), Fault>
        ensures { result_err result ≡ check_question self.now (Span table (end_of (option_copied lower.entry)) (end_of (option_copied upper.entry))) }
    {
        check_range(self.table_at(table)?, lower, upper)
    }

    /// Whether the keys of a table that begin with a part have a range: `NoTable`, or as `TableDef::check_prefix` says.
    pub fn check_prefix(&self, table: usize, first: &KeyPart<A>) -> Result<(), Fault>
        ensures { result_err result ≡ check_prefix self.now table (part_of first.now) }
    {
        self.table_at(table)?.check_prefix(first)
    }
}

impl<A: Allocator + Clone> Schema<A> {
    /// The range of the keys of a table that begin with a part, as `TableDef::prefix` says. Refused as `check_prefix` says, or else
    /// with `Memory` where there is none for the ends.
    pub fn prefix(&self, alloc: A, table: usize, first: &KeyPart<A>) -> Result<Prefix<A>, Fault>
        ensures { MatchResult result
            (λ prefix. (check_prefix self.now table (part_of first.now) ≡ None)
            × IsPrefix self.now table (part_of first.now) (key_of prefix.lower) (end_of prefix.upper))
            (λ fault. (check_prefix self.now table (part_of first.now) ≡ Some fault)
            ⊎ (check_prefix self.now table (part_of first.now) ≡ None) × (fault ≡ Memory)) }
    {
        let table = self.table_at(table)?;
        let prefix = table.prefix(alloc, first)?;
        Ok(prefix)
    }

    /// The schema of tables of these names, kinds of keys and kinds of columns, each at its place. Refused with `BadSchema` where
    /// `new` refuses them, and with `Memory` where there is none for them.
    pub fn of(alloc: A, tables: &[(&str, KeyKind, &[Kind])]) -> Result<Schema<A>, Fault>
        ensures { MatchResult result
            (λ schema. (check_tables (map named_table tables.now) ≡ None) × (schema ≡ map named_table tables.now))
            (λ fault. (fault ≡ Memory) ⊎ (check_tables (map named_table tables.now) ≡ Some fault)) }
    {
        let mut list = Vec::new(alloc.clone()?);
        for table in tables {
            list.push(table_of(alloc.clone()?, table)?)?;
        }
        let schema = Schema::new(list)?;
        Ok(schema)
    }
}

// The table of a name, the kind of its keys and the kinds of its columns; `Memory` where there is none for it.
fn table_of<A: Allocator + Clone>(
    alloc: A,
    table: &(&str, KeyKind, &[Kind]),
) -> Result<TableDef<A>, Fault>
    ensures ok { IfOk result (λ made. table_of made ≡ named_table table.now) }
    ensures memory { IfErr result (λ fault. fault ≡ Memory) }
{
    let name = Text::new(alloc.clone()?, table.0)?;
    let columns = Vec::from_slice(alloc, table.2)?;
    Ok(TableDef {
        name,
        key: table.1,
        columns,
    })
}

// Whether a range fits its table.
fn check_range<A: Allocator>(
    table: &TableDef<A>,
    lower: Option<&Key<A>>,
    upper: Option<&Key<A>>,
) -> Result<(), Fault>
    ensures { result_err result ≡ check_range (table_of table.now) (end_of (option_copied lower.entry)) (end_of (option_copied upper.entry)) }
{
    table.check_end(lower)?;
    table.check_end(upper)?;
    if is_empty_range(lower, upper) {
        return Err(Fault::EmptyRange);
    }
    Ok(())
}

// Whether both ends are there, and the lower one is not below the upper one.
fn is_empty_range<A: Allocator>(lower: Option<&Key<A>>, upper: Option<&Key<A>>) -> bool
    ensures { result ≡ is_empty_range (end_of (option_copied lower.entry)) (end_of (option_copied upper.entry)) }
{
    match (lower, upper) {
        (Some(lower), Some(upper)) => !(lower < upper),
        _ => false,
    }
}

// Whether each table has a good name of its own, and 1 to 8 columns.
fn are_tables<A: Allocator>(tables: &[TableDef<A>]) -> bool
    ensures { result ≡ are_tables (tables_of tables.now) }
{
    for (place, table) in tables.iter().enumerate() {
        if !table.fits_before(&tables[place + 1..]) {
            return false;
        }
    }
    true
}

impl<A: Allocator + Clone> Clone for Schema<A> {
    ghost is_clone = { λ source copy. copy ≡ source };

    fn clone(&self) -> Result<Schema<A>, AllocError> {
        Ok(Schema {
            tables: copies(&self.tables)?,
        })
    }
}

// The same tables, in memory of their own.
fn copies<A: Allocator + Clone>(
    tables: &Vec<TableDef<A>, A>,
) -> Result<Vec<TableDef<A>, A>, AllocError>
    ensures same { IfOk result (λ copies. tables_of copies.items ≡ tables_of tables.now.items) }
{
    let originals = tables.as_slice();
    let mut copies = Vec::with_capacity(tables.allocator().clone()?, originals.len())?;
    for table in originals {
        copies.push(table.clone()?)?;
    }
    Ok(copies)
}
