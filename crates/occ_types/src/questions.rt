//! What a transaction asks of the table.
ghost use Rattle.std.specs.Prelude.{◌≡◌, ◌&&◌};
ghost use Rattle.std.specs.Ordering.{on};
ghost use Rattle.std.specs.Option.{option_copied};
ghost use Rattle.std.specs.Cmp.{on_per, on_equiv, partial_equiv_from_equiv};
ghost use Rattle.occ_types.specs.Question.{asks, is_from, is_below};
ghost use Rattle.occ_types.specs.Same.{question_same, question_same_equiv};
ghost use Rattle.occ_types.specs.PlainData.{key_of, end_of, question_of, table_asked};

use crate::keys::Key;
use crate::objects::Object;
use std::alloc::{AllocError, Allocator};

/// What a transaction asks of the table. Tables are named by their places in the schema.
#[derive(Drop)]
#[derive_where(Debug)]
pub enum Question<A: Allocator> {
    /// The row of one key of a table.
    One(Object<A>),
    /// The rows of a table from the lower end on and below the upper end; either end may be missing.
    Span {
        /// The place of the table.
        table: usize,
        /// The first key that is asked for; all keys up to the upper end where there is none.
        lower: Option<Key<A>>,
        /// The first key that is not asked for any more; all keys from the lower end on where there is none.
        upper: Option<Key<A>>,
    },
}

impl<A: Allocator> Question<A> {
    /// The place of the table that is asked.
    pub fn table(&self) -> usize
        ensures { result ≡ table_asked (question_of self.now) }
    {
        match self {
            Question::One(object) => object.table,
            Question::Span { table, .. } => *table,
        }
    }

    /// Whether the question asks for this key of this table.
    #[tactic(auto, using(crate::proofs::Asked::questions_asked))]
    pub fn asks(&self, table: usize, key: &Key<A>) -> bool
        ensures { result ≡ asks (question_of self.now) (table, key_of key.now) }
    {
        match self {
            Question::One(object) => object.table == table && &object.key == key,
            Question::Span {
                table: asked,
                lower,
                upper,
            } => table == *asked && lies_between(lower.as_ref(), upper.as_ref(), key),
        }
    }
}

// Whether a key lies at or above the lower end and below the upper one, where they are there.
fn lies_between<A: Allocator>(lower: Option<&Key<A>>, upper: Option<&Key<A>>, key: &Key<A>) -> bool
    ensures { result ≡ (is_from (end_of (option_copied lower.entry)) (key_of key.now) && is_below (end_of (option_copied upper.entry)) (key_of key.now)) }
{
    is_reached(lower, key) && is_under(upper, key)
}

// Whether a key lies at or above the lower end, where there is one.
fn is_reached<A: Allocator>(lower: Option<&Key<A>>, key: &Key<A>) -> bool
    ensures { result ≡ is_from (end_of (option_copied lower.entry)) (key_of key.now) }
{
    match lower {
        None => true,
        Some(end) => end <= key,
    }
}

// Whether a key lies below the upper end, where there is one.
fn is_under<A: Allocator>(upper: Option<&Key<A>>, key: &Key<A>) -> bool
    ensures { result ≡ is_below (end_of (option_copied upper.entry)) (key_of key.now) }
{
    match upper {
        None => true,
        Some(end) => !(end <= key),
    }
}

impl<A: Allocator> Clone for Question<A> {
    ghost is_clone = { λ source copy. copy ≡ source };

    fn clone(&self) -> Result<Question<A>, AllocError> {
        match self {
            Question::One(object) => Ok(Question::One(object.clone()?)),
            Question::Span {
                table,
                lower,
                upper,
            } => Ok(Question::Span {
                table: *table,
                lower: lower.clone()?,
                upper: upper.clone()?,
            }),
        }
    }
}

impl<A: Allocator> PartialEq for Question<A> {
    ghost eq = { on question_of question_same };

    ghost laws = { on_per question_of (partial_equiv_from_equiv question_same_equiv) };

    fn eq(&self, other: &Question<A>) -> bool {
        match (self, other) {
            (Question::One(object), Question::One(another)) => object == another,
            (
                Question::Span {
                    table,
                    lower,
                    upper,
                },
                Question::Span {
                    table: other_table,
                    lower: other_lower,
                    upper: other_upper,
                },
            ) => table == other_table && lower == other_lower && upper == other_upper,
            _ => false,
        }
    }
}

impl<A: Allocator> Eq for Question<A> {
    ghost laws = { on_equiv question_of question_same_equiv };
}
