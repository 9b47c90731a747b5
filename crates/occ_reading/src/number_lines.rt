//! Lines that have numbers alone: the first one of the log or of its base, the first one of a row of the log, that of a session, and the last one of a book.

ghost use Rattle.std.specs.Prelude.{◌≡◌};
ghost use Rattle.occ_text.specs.Reading.{Reads};
ghost use Rattle.occ_text.specs.Fields.{before, whole};
ghost use Rattle.occ_reading.specs.NumberLines.{mark_text, counts_text, head_text, base_text, began_text, HeadFits, MarkFits, CountsFit, BaseHeadFits, BeganFits, next_stand, next_session, head_line, head_of_line, mark_of_line, base_of_line, began_of_line, counts_of_line};

use occ_book::Standing;
use occ_model::Cause;
use occ_print::sections::{Section, number_word};
use occ_text::cursors::{at_end, next_number, next_token, next_word};
use occ_text::headers::count;
use occ_text::separated_parts::Parts;
use occ_text::tokens::{is_word, tokens};

/// The first line of a row of the log: `row PLACE S N START FINISH R W STANDING`.
#[derive(Clone, Copy, Debug, PartialEq, Eq)]
pub struct Head {
    /// The place in the log.
    pub place: usize,
    /// The session.
    pub session: usize,
    /// The number in the session.
    pub number: u64,
    /// The counter as the transaction began.
    pub start: u64,
    /// The counter as it entered.
    pub finish: u64,
    /// How many reads follow.
    pub reads: usize,
    /// How many writes follow them.
    pub writes: usize,
    /// How far it has come: `open`, `writing D` where so many of its writes are done, `done TN` under this number, or `conflict` or `tooold`, for which it is backed up. Nothing more is told of an open row.
    pub standing: Standing<()>,
}

/// A session with its number: `mark S N` for its closing mark, or `last S N` for its last folded number.
#[derive(Clone, Copy, Debug, PartialEq, Eq)]
pub struct Mark {
    /// The session.
    pub session: usize,
    /// Its number.
    pub number: u64,
}

/// The first line of a base: `base P L R`.
#[derive(Clone, Copy, Debug, PartialEq, Eq)]
pub struct BaseHead {
    /// The place behind what was folded. It is not 0.
    pub place: usize,
    /// How many `last` lines follow.
    pub numbers: u64,
    /// How many `from` lines follow them.
    pub rows: u64,
}

/// The line behind those of the tables.
#[derive(Clone, Copy, Debug, PartialEq, Eq)]
pub enum Began {
    /// `log K`: nothing was folded, and so many rows follow.
    Log(u64),
    /// `base P L R`: something was folded.
    Base(BaseHead),
}

/// The last line of a book: `counter T low L`.
#[derive(Clone, Copy, Debug, PartialEq, Eq)]
pub struct Counts {
    /// The transaction counter.
    pub counter: u64,
    /// The lower end of the window.
    pub low: u64,
}

/// The standing that the next tokens say, of a row with so many writes.
#[tactic(auto, unfolding(crate::specs::NumberLines::next_stand))]
fn next_stand(writes: usize, parts: &mut Parts<'_>) -> Option<Standing<()>>
    ensures { before parts.new result ≡ next_stand writes parts.old }
{
    let word = next_token(parts)?;
    if is_word(word, "open") {
        Some(Standing::Open(()))
    } else if is_word(word, "writing") {
        let done = next_number(parts, writes as u64)?;
        Some(Standing::Writing(done as usize))
    } else if is_word(word, "done") {
        let number = next_number(parts, u64::MAX)?;
        Some(Standing::Done(number))
    } else if is_word(word, "conflict") {
        Some(Standing::Back(Cause::Conflict))
    } else if is_word(word, "tooold") {
        Some(Standing::Back(Cause::TooOld))
    } else {
        None
    }
}

/// A session of a header that has so many.
#[tactic(auto, unfolding(crate::specs::NumberLines::next_session))]
fn next_session(sessions: usize, parts: &mut Parts<'_>) -> Option<usize>
    ensures { before parts.new result ≡ next_session sessions parts.old }
{
    let session = next_number(parts, sessions as u64)?;
    if session == 0 {
        return None;
    }
    Some(session as usize)
}

fn head_of_line(sessions: usize, line: &[u8]) -> Option<Head>
    ensures { result ≡ head_of_line sessions line.now }
{
    // no head is read of parts that are no tokens, so they need no test before
    head_of_parts(sessions, Parts::new(line, b' '))
}

fn head_of_parts(sessions: usize, mut parts: Parts<'_>) -> Option<Head>
    ensures { result ≡ whole (head_line sessions) parts.entry }
{
    next_word(&mut parts, "row")?;
    let place = next_number(&mut parts, u64::MAX)? as usize;
    let session = next_session(sessions, &mut parts)?;
    let number = next_number(&mut parts, u64::MAX)?;
    let start = next_number(&mut parts, u64::MAX)?;
    let finish = next_number(&mut parts, u64::MAX)?;
    let reads = next_number(&mut parts, u64::MAX)? as usize;
    let writes = next_number(&mut parts, u64::MAX)? as usize;
    let standing = next_stand(writes, &mut parts)?;
    at_end(&mut parts)?;
    Some(Head {
        place,
        session,
        number,
        start,
        finish,
        reads,
        writes,
        standing,
    })
}

/// The first line of a row of the log, under a header with so many sessions. None where the line is none.
pub fn read_head(line: &[u8], sessions: usize) -> Option<Head>
    ensures exact { result ≡ head_of_line sessions line.now }
    ensures grammar { Reads head_text (HeadFits sessions) line.now result }
{
    head_of_line(sessions, line)
}

#[tactic(auto, unfolding(crate::specs::NumberLines::mark_of_line))]
fn mark_of_line(section: Section, sessions: usize, line: &[u8]) -> Option<Mark>
    ensures { result ≡ mark_of_line section sessions line.now }
{
    let mut parts = tokens(line)?;
    next_word(&mut parts, number_word(section))?;
    let session = next_session(sessions, &mut parts)?;
    let number = next_number(&mut parts, u64::MAX)?;
    at_end(&mut parts)?;
    Some(Mark { session, number })
}

/// The line of a session in a section, under a header with so many sessions. None where the line is none.
pub fn read_mark(line: &[u8], section: Section, sessions: usize) -> Option<Mark>
    ensures exact { result ≡ mark_of_line section sessions line.now }
    ensures grammar { Reads (mark_text section) (MarkFits sessions) line.now result }
{
    mark_of_line(section, sessions, line)
}

#[tactic(auto, unfolding(crate::specs::NumberLines::base_of_line))]
fn base_of_line(line: &[u8]) -> Option<BaseHead>
    ensures { result ≡ base_of_line line.now }
{
    let mut parts = tokens(line)?;
    next_word(&mut parts, "base")?;
    let place = next_session(usize::MAX, &mut parts)?;
    let numbers = next_number(&mut parts, u64::MAX)?;
    let rows = next_number(&mut parts, u64::MAX)?;
    at_end(&mut parts)?;
    Some(BaseHead {
        place,
        numbers,
        rows,
    })
}

/// The first line of a base. None where the line is none.
pub fn read_base(line: &[u8]) -> Option<BaseHead>
    ensures exact { result ≡ base_of_line line.now }
    ensures grammar { Reads base_text BaseHeadFits line.now result }
{
    base_of_line(line)
}

/// How the log of a book begins. None where the line is neither a count of its rows nor the first one of a base.
pub fn read_began(line: &[u8]) -> Option<Began>
    ensures exact { result ≡ began_of_line line.now }
    ensures grammar { Reads began_text BeganFits line.now result }
{
    if let Some(rows) = count(line, "log", 0, u64::MAX) {
        return Some(Began::Log(rows));
    }
    let head = read_base(line)?;
    Some(Began::Base(head))
}

#[tactic(auto, unfolding(crate::specs::NumberLines::counts_of_line))]
fn counts_of_line(line: &[u8]) -> Option<Counts>
    ensures { result ≡ counts_of_line line.now }
{
    let mut parts = tokens(line)?;
    next_word(&mut parts, "counter")?;
    let counter = next_number(&mut parts, u64::MAX)?;
    next_word(&mut parts, "low")?;
    let low = next_number(&mut parts, u64::MAX)?;
    at_end(&mut parts)?;
    Some(Counts { counter, low })
}

/// The last line of a book. None where the line is none.
pub fn read_counts(line: &[u8]) -> Option<Counts>
    ensures exact { result ≡ counts_of_line line.now }
    ensures grammar { Reads counts_text CountsFit line.now result }
{
    counts_of_line(line)
}
