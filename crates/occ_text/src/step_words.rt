//! The words of steps, and the numbers that stand behind them.

ghost use Rattle.std.specs.Prelude.{◌≡◌, ◌-◌, ◌^◌, ℕ, List, ◌∷◌, None, IfSome};
ghost use Rattle.occ_text.specs.Fields.{before, next_number};
ghost use Rattle.occ_text.specs.Reading.{number_of};
ghost use Rattle.occ_text.specs.Steps.{act_word};
ghost use Rattle.occ_text.specs.declared.steps.Act.{Act};

use crate::cursors::next_number;
use crate::separated_parts::Parts;
use crate::steps::Act;
use crate::tokens::{is_word, number};

/// The word of an act.
fn act_word(act: Act) -> &'static str
    ensures { result.now ≡ act_word act }
{
    match act {
        Act::Begin => "begin",
        Act::Abandon => "abandon",
        Act::Submit => "submit",
        Act::Close => "close",
        Act::Enter => "enter",
        Act::Serial => "serial",
        Act::Decide => "decide",
        Act::Write => "write",
        Act::Finish => "finish",
        Act::BackUp => "backup",
    }
}

/// The one act whose word may begin with these two bytes. Whether it is that word is still to be seen.
fn likely_act(first: u8, second: u8) -> Act
    ensures { (act : Act) (rest : List ℕ) → act_word act ≡ first ∷ second ∷ rest → result ≡ act }
{
    match first {
        b'a' => Act::Abandon,
        b'b' if second == b'a' => Act::BackUp,
        b'b' => Act::Begin,
        b'c' => Act::Close,
        b'd' => Act::Decide,
        b'e' => Act::Enter,
        b'f' => Act::Finish,
        b's' if second == b'e' => Act::Serial,
        b's' => Act::Submit,
        _ => Act::Write,
    }
}

/// The act of a word. It is compared with one word alone, which its first two bytes tell.
pub(crate) fn act_of(word: &[u8]) -> Option<Act>
    ensures act { IfSome result (λ act. word.now ≡ act_word act) }
    ensures none { result ≡ None → (act : Act) → word.now ≡ act_word act → ⊥ }
{
    let [first, second, ..] = word else {
        return None;
    };
    let act = likely_act(*first, *second);
    if is_word(word, act_word(act)) {
        Some(act)
    } else {
        None
    }
}

/// A session, which may be one that doesn't exist.
pub(crate) fn session(token: &[u8]) -> Option<usize>
    ensures { result ≡ number_of 255 token.now }
{
    Some(number(token, 255)? as usize)
}

/// The next token as a session.
pub(crate) fn next_session(parts: &mut Parts<'_>) -> Option<usize>
    ensures { before parts.new result ≡ next_number 255 parts.old }
{
    let session = next_number(parts, 255)?;
    Some(session as usize)
}

/// The number of a transaction, which may be one that its session never comes to.
pub(crate) fn next_transaction(parts: &mut Parts<'_>) -> Option<u64>
    ensures { before parts.new result ≡ next_number (2 ^ 32 - 1) parts.old }
{
    next_number(parts, u32::MAX as u64)
}

/// The start of a transaction, which may lie above the counter.
pub(crate) fn next_start(parts: &mut Parts<'_>) -> Option<u64>
    ensures { before parts.new result ≡ next_number (2 ^ 64 - 1) parts.old }
{
    next_number(parts, u64::MAX)
}
