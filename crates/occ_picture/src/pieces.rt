//! Words that are cut into lines.

use std::alloc::{AllocError, Allocator};

/// A line of a card, or of what stands over a picture.
#[derive(Drop)]
pub(crate) struct Piece<A: Allocator> {
    /// The row that it is about.
    pub(crate) row: usize,
    /// Its class.
    pub(crate) class: &'static str,
    /// The opponent to which it leads.
    pub(crate) opponent: Option<usize>,
    /// What it says.
    pub(crate) words: Vec<u8, A>,
}

/// What lines of a row are to be.
#[derive(Clone, Copy)]
pub(crate) struct Kind {
    pub(crate) row: usize,
    pub(crate) class: &'static str,
    pub(crate) opponent: Option<usize>,
}

/// Appends words in lines of at most `wide` bytes, of which the first one leads to the opponent.
pub(crate) fn push_pieces<A: Allocator + Copy>(
    alloc: A,
    pieces: &mut Vec<Piece<A>, A>,
    kind: Kind,
    wide: usize,
    words: &[u8],
) -> Result<(), AllocError> {
    let mut rest = words;
    let mut opponent = kind.opponent;
    for _ in 0..words.len() {
        if rest.is_empty() {
            break;
        }
        let (front, behind) = cut(rest, wide);
        push_piece(alloc, pieces, Kind { opponent, ..kind }, front)?;
        opponent = None;
        rest = behind;
    }
    Ok(())
}

fn push_piece<A: Allocator + Copy>(
    alloc: A,
    pieces: &mut Vec<Piece<A>, A>,
    kind: Kind,
    front: &[u8],
) -> Result<(), AllocError> {
    let mut words = Vec::new(alloc);
    words.extend_from_slice(front)?;
    pieces.push(Piece {
        row: kind.row,
        class: kind.class,
        opponent: kind.opponent,
        words,
    })?;
    Ok(())
}

// The first line of words, up to a space where there is one, and what follows.
fn cut(words: &[u8], wide: usize) -> (&[u8], &[u8]) {
    if words.len() <= wide {
        return (words, &[]);
    }
    match words.split_at_checked(end_of_line(words, wide)) {
        Some(parts) => parts,
        None => (words, &[]),
    }
}

// Where the first line of words ends: behind the last space that it has room for, or else where there is no more room.
fn end_of_line(words: &[u8], wide: usize) -> usize {
    let mut end = wide;
    for (place, byte) in words.iter().enumerate().take(wide) {
        if *byte == b' ' {
            end = place.saturating_add(1);
        }
    }
    end
}
