//! Parts between separators, one after another, without memory.

ghost use Rattle.std.specs.Prelude.{◌≡◌, ◌<◌, ◌≤◌, ◌≢◌, [], ◌∷◌, All, take, length, slice_index, option_map, MatchOption};
ghost use Rattle.occ_text.specs.SeparatedParts.{parts_left};

use memchr::memchr;
use std::marker::Model;

/// The parts of some bytes, cut at each separator. What clauses see is the list of those to come.
#[derive(Debug, Drop)]
pub struct Parts<'a> {
    rest: Option<&'a [u8]>,
    separator: u8,
}

impl<'a> Model for Parts<'a> {
    ghost use Rattle.std.specs.Prelude.{List, ℕ, option_map};
    ghost use Rattle.occ_text.specs.SeparatedParts.{parts_left};

    ghost Value = { List (List ℕ) };

    ghost view = { λ p. parts_left p.separator (option_map (λ r. r.now) p.rest) };
}

impl<'a> Parts<'a> {
    /// The parts of `bytes`: one more than there are separators.
    pub fn new(bytes: &'a [u8], separator: u8) -> Self
        ensures { result ≡ parts_left separator (Some bytes.now) }
    {
        Parts {
            rest: Some(bytes),
            separator,
        }
    }

    /// The next part, or nothing after the last one.
    pub fn take_part(&mut self) -> Option<&'a [u8]>
        ensures { MatchOption result ((self.old ≡ []) × (self.new ≡ [])) (λ part. self.old ≡ part.now ∷ self.new) }
    {
        let rest = self.rest?;
        let (part, after) = cut(rest, self.separator);
        self.rest = after;
        Some(part)
    }
}

/// The first part, and what stands behind its separator, if one does.
pub fn cut(bytes: &[u8], separator: u8) -> (&[u8], Option<&[u8]>)
    ensures { parts_left separator (Some bytes.now) ≡ result.0.now ∷ parts_left separator (option_map (λ rest. rest.now) result.1) }
{
    let at = find_near(bytes, separator);
    let (part, rest) = bytes.split_at(at);
    match rest {
        [] => (part, None),
        [_, after @ ..] => (part, Some(after)),
    }
}

/// The same as `find`, for a byte that stands near: a short walk costs less than to make ready for a long one.
#[inline(always)]
fn find_near(bytes: &[u8], wanted: u8) -> usize
    ensures within { result ≤ length bytes.now }
    ensures before { All (λ byte. byte ≢ wanted) (take result bytes.now) }
    ensures found { result < length bytes.now → slice_index bytes.now result ≡ wanted }
{
    for (place, byte) in bytes.iter().enumerate() {
        if *byte == wanted {
            return place;
        }
    }
    bytes.len()
}

/// Where the byte stands first, or the length where it doesn't.
pub fn find(bytes: &[u8], wanted: u8) -> usize
    ensures within { result ≤ length bytes.now }
    ensures before { All (λ byte. byte ≢ wanted) (take result bytes.now) }
    ensures found { result < length bytes.now → slice_index bytes.now result ≡ wanted }
{
    match memchr(wanted, bytes) {
        Some(place) => place,
        None => bytes.len(),
    }
}
