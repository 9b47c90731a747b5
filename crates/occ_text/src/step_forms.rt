//! The steps, each by its form: what stands behind its word is read in order.

ghost use Rattle.std.specs.Prelude.{◌≡◌};
ghost use Rattle.occ_text.specs.Escapes.{Gives};
ghost use Rattle.occ_text.specs.Fields.{GivesNext, read_form};
ghost use Rattle.occ_text.specs.StepReading.{act_form, get_form, delete_form, forge_form, scan_form, put_form, raw_form, alone_step};
ghost use Rattle.occ_text.specs.Steps.{step_of};

use crate::cursors::{next_end, next_key, next_name, next_row};
use crate::operation_reading::operations;
use crate::separated_parts::Parts;
use crate::step_words::{self, next_session, next_start, next_transaction};
use crate::steps::{Act, Step};
use crate::tokens::Unread;
use crate::versions::Version;
use std::alloc::Allocator;

/// `WORD S`.
#[tactic(auto, unfolding(crate::specs::Fields::read_form))]
pub(crate) fn act_step<'a, A: Allocator>(
    act: Act,
    parts: &mut Parts<'a>,
) -> Result<Step<'a, A>, Unread>
    ensures { GivesNext step_of result (read_form (act_form act) parts.old) parts.new }
{
    let session = next_session(parts).ok_or(Unread::Malformed)?;
    Ok(Step::Does { act, session })
}

/// `get S NAME KEY`.
#[tactic(auto, unfolding(crate::specs::Fields::read_form))]
pub(crate) fn get_step<'a, A: Allocator + Copy>(
    alloc: A,
    version: Version,
    parts: &mut Parts<'a>,
) -> Result<Step<'a, A>, Unread>
    ensures { GivesNext step_of result (read_form (get_form version) parts.old) parts.new }
{
    let session = next_session(parts).ok_or(Unread::Malformed)?;
    let table = next_name(parts).ok_or(Unread::Malformed)?;
    let key = next_key(alloc, version, parts)?;
    Ok(Step::Get {
        session,
        table,
        key,
    })
}

/// `delete S NAME KEY`.
#[tactic(auto, unfolding(crate::specs::Fields::read_form))]
pub(crate) fn delete_step<'a, A: Allocator + Copy>(
    alloc: A,
    version: Version,
    parts: &mut Parts<'a>,
) -> Result<Step<'a, A>, Unread>
    ensures { GivesNext step_of result (read_form (delete_form version) parts.old) parts.new }
{
    let session = next_session(parts).ok_or(Unread::Malformed)?;
    let table = next_name(parts).ok_or(Unread::Malformed)?;
    let key = next_key(alloc, version, parts)?;
    Ok(Step::Delete {
        session,
        table,
        key,
    })
}

/// `forge S N START`.
#[tactic(auto, unfolding(crate::specs::Fields::read_form))]
pub(crate) fn forge_step<'a, A: Allocator>(parts: &mut Parts<'a>) -> Result<Step<'a, A>, Unread>
    ensures { GivesNext step_of result (read_form forge_form parts.old) parts.new }
{
    let session = next_session(parts).ok_or(Unread::Malformed)?;
    let number = next_transaction(parts).ok_or(Unread::Malformed)?;
    let start = next_start(parts).ok_or(Unread::Malformed)?;
    Ok(Step::Forge {
        session,
        number,
        start,
    })
}

/// `scan S NAME KEY KEY`.
#[tactic(auto, unfolding(crate::specs::Fields::read_form))]
pub(crate) fn scan_step<'a, A: Allocator + Copy>(
    alloc: A,
    version: Version,
    parts: &mut Parts<'a>,
) -> Result<Step<'a, A>, Unread>
    ensures { GivesNext step_of result (read_form (scan_form version) parts.old) parts.new }
{
    let session = next_session(parts).ok_or(Unread::Malformed)?;
    let table = next_name(parts).ok_or(Unread::Malformed)?;
    let lower = next_end(alloc, version, parts)?;
    let upper = next_end(alloc, version, parts)?;
    Ok(Step::Scan {
        session,
        table,
        lower,
        upper,
    })
}

/// `put S NAME KEY ROW`.
#[tactic(auto, unfolding(crate::specs::Fields::read_form))]
pub(crate) fn put_step<'a, A: Allocator + Copy>(
    alloc: A,
    version: Version,
    parts: &mut Parts<'a>,
) -> Result<Step<'a, A>, Unread>
    ensures { GivesNext step_of result (read_form (put_form version) parts.old) parts.new }
{
    let session = next_session(parts).ok_or(Unread::Malformed)?;
    let table = next_name(parts).ok_or(Unread::Malformed)?;
    let key = next_key(alloc, version, parts)?;
    let row = next_row(alloc, parts)?;
    Ok(Step::Put {
        session,
        table,
        key,
        row,
    })
}

/// `rawread S N START NAME KEY`.
#[tactic(auto, unfolding(crate::specs::Fields::read_form))]
pub(crate) fn raw_step<'a, A: Allocator + Copy>(
    alloc: A,
    version: Version,
    parts: &mut Parts<'a>,
) -> Result<Step<'a, A>, Unread>
    ensures { GivesNext step_of result (read_form (raw_form version) parts.old) parts.new }
{
    let session = next_session(parts).ok_or(Unread::Malformed)?;
    let number = next_transaction(parts).ok_or(Unread::Malformed)?;
    let start = next_start(parts).ok_or(Unread::Malformed)?;
    let table = next_name(parts).ok_or(Unread::Malformed)?;
    let key = next_key(alloc, version, parts)?;
    Ok(Step::RawRead {
        session,
        number,
        start,
        table,
        key,
    })
}

/// `alone S OP ..`.
#[tactic(auto, unfolding(crate::specs::StepReading::alone_step))]
pub(crate) fn alone_step<'a, A: Allocator + Copy>(
    alloc: A,
    version: Version,
    session: &[u8],
    tokens: Parts<'a>,
) -> Result<Step<'a, A>, Unread>
    ensures { Gives step_of result (alone_step version session.now tokens.entry) }
{
    let session = step_words::session(session).ok_or(Unread::Malformed)?;
    let operations = operations(alloc, version, tokens)?;
    Ok(Step::Alone {
        session,
        operations,
    })
}
