//! Texts, which are seen as their bytes.
ghost use Rattle.std.specs.Prelude.{◌≡◌, ℕ, ◌==◌, List, [], ◌∷◌, ◌++◌, length, Some, IfOk, MatchResult, nat_eq, refl, string_bytes};
ghost use Rattle.std.specs.Ordering.{nat_cmp};
ghost use Rattle.std.specs.Cmp.{partial_equiv_from_equiv};
ghost use Rattle.std.specs.Cmp.Lexicographic.{pointwise, slice_cmp, nat_list_eq_equiv, nat_list_cmp_total, texts_po, texts_ties};
ghost use Rattle.std.specs.Cmp.Rules.{hashing};
ghost use Rattle.std.specs.Hash as fed;
ghost use Rattle.std.proofs.Common.{rules};
ghost use Rattle.occ_types.specs.Spelling.{text_text};

use crate::spelling::write_text;
use std::alloc::{AllocError, AllocFailed, Allocator};
use std::cmp::Ordering;
use std::fmt;
use std::hash::{Hash, Hasher};
use std::marker::Model;
use std::sync::Arc;

/// A text of UTF-8, which clauses see as its bytes. Its copies share these, so that a copy takes no memory.
/// `Display` writes it as the text formats do.
#[derive(Drop)]
#[derive_where(Debug)]
pub struct Text<A: Allocator> {
    text: Arc<String<A>, A>,
}

impl<A: Allocator> Model for Text<A> {
    ghost use Rattle.std.specs.Prelude.{ℕ, List, string_bytes};

    ghost Value = { List ℕ };

    ghost view = { λ t. string_bytes t.text.value };
}

impl<A: Allocator + Clone> Text<A> {
    /// A copy of `text`; an error where there is no memory for it.
    pub fn new(alloc: A, text: &str) -> Result<Text<A>, AllocError>
        ensures { IfOk result (λ t. t ≡ text.now) }
    {
        let text = Text::from_string(String::from_str(alloc, text)?)?;
        Ok(text)
    }

    /// The text of a string, which keeps the room that the string has. Refused, and the string handed back, where there is no memory
    /// for what the copies of the text share.
    pub fn from_string(text: String<A>) -> Result<Text<A>, AllocFailed<String<A>>>
        ensures { MatchResult result (λ t. t ≡ string_bytes text) (λ failed. failed.value ≡ text) }
    {
        let Ok(alloc) = text.allocator().clone() else {
            return Err(AllocFailed { value: text });
        };
        match Arc::new(alloc, text) {
            Ok(text) => Ok(Text { text }),
            Err(failed) => Err(failed),
        }
    }

    /// The next text in the order of texts, which is this one with a byte 0 at its end; an error where there is no memory for it.
    pub fn after(&self, alloc: A) -> Result<Text<A>, AllocError>
        ensures { IfOk result (λ next. next ≡ self.now ++ 0 ∷ []) }
    {
        let text = self.as_str();
        let mut next = String::with_capacity(alloc, text.len() + 1)?;
        next.push_str(text)?;
        next.push('\0')?;
        let next = Text::from_string(next)?;
        Ok(next)
    }
}

impl<A: Allocator> Text<A> {
    /// The text.
    pub fn as_str(&self) -> &str
        ensures { result.now ≡ self.now }
    {
        let text: &String<A> = &self.text;
        text.as_str()
    }

    /// The bytes of the text.
    pub fn as_bytes(&self) -> &[u8]
        ensures { result.now ≡ self.now }
    {
        self.as_str().as_bytes()
    }

    /// How many bytes the text has.
    pub fn len(&self) -> usize
        ensures { result ≡ length self.now }
    {
        self.as_bytes().len()
    }

    /// Whether the text has no byte.
    pub fn is_empty(&self) -> bool
        ensures { result ≡ (length self.now == 0) }
    {
        self.len() == 0
    }
}

impl<A: Allocator> Clone for Text<A> {
    ghost is_clone = { λ source copy. copy ≡ source };

    fn clone(&self) -> Result<Text<A>, AllocError> {
        Ok(Text {
            text: Arc::try_clone(&self.text)?,
        })
    }
}

impl<A: Allocator> fmt::Display for Text<A> {
    ghost output = { λ text. Some (text_text text) };

    fn fmt<W: fmt::Write>(&self, f: &mut fmt::Formatter<W>) -> fmt::Result {
        write_text(f, self.as_str())
    }
}

impl<A: Allocator> PartialEq for Text<A> {
    ghost eq = { pointwise nat_eq };

    ghost laws = { partial_equiv_from_equiv nat_list_eq_equiv };

    fn eq(&self, other: &Text<A>) -> bool {
        self.as_str() == other.as_str()
    }
}

impl<A: Allocator> Eq for Text<A> {
    ghost laws = { nat_list_eq_equiv };
}

impl<A: Allocator> PartialOrd for Text<A> {
    ghost partial_cmp = { λ s t. Some (slice_cmp nat_cmp s t) };

    ghost laws = { texts_po };

    fn partial_cmp(&self, other: &Text<A>) -> Option<Ordering> {
        Some(self.cmp(other))
    }
}

impl<A: Allocator> Ord for Text<A> {
    ghost cmp = { slice_cmp nat_cmp };

    ghost total = { nat_list_cmp_total };

    ghost matches_partial_cmp = { λ s t. refl };

    ghost matches_eq = { texts_ties };

    fn cmp(&self, other: &Text<A>) -> Ordering {
        self.as_str().cmp(other.as_str())
    }
}

impl<A: Allocator> Hash for Text<A> {
    ghost hash_input = { fed.str };

    ghost respects_eq = { Prim.search (hashing, rules) };

    fn hash<H: Hasher>(&self, state: &mut H) {
        self.as_str().hash(state);
    }
}
