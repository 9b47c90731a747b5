//! What kinds of keys and cells a table may have.

/// The kind of a cell.
#[derive(Clone, Copy, Debug, PartialEq, Eq)]
pub enum Kind {
    /// A whole number of 64 bits.
    Int,
    /// A text.
    Text,
}

/// The kind of one part of a key of two parts.
#[derive(Clone, Copy, Debug, PartialEq, Eq)]
pub enum PartKind {
    /// A number of 64 bits, without a sign.
    Num,
    /// A text.
    Text,
}

/// The kind of a table's keys.
#[derive(Clone, Copy, Debug, PartialEq, Eq)]
pub enum KeyKind {
    /// Numbers of 64 bits, without a sign.
    Num,
    /// Texts.
    Text,
    /// Two parts, the first one of the first kind and the second one of the second.
    Pair(PartKind, PartKind),
}
