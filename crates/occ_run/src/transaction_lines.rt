//! The reader of the lines of transactions.

ghost use Rattle.std.specs.Prelude.{◌≡◌, Some, IfOk, map};
ghost use Rattle.occ_text.specs.Escapes.{Gives};
ghost use Rattle.occ_text.specs.Operations.{operation_of};
ghost use Rattle.occ_run.specs.TransactionLines as plain;
ghost use Rattle.occ_run.specs.TransactionLines.{if_transaction, transaction_of_tokens, transaction_of_line, transaction_text, TransactionFits};
ghost use Rattle.occ_run.specs.Plans.{transaction_of};

use occ_text::cursors::{next_number, next_word};
use occ_text::operation_reading::operations;
use occ_text::operations::Operation;
use occ_text::separated_parts::Parts;
use occ_text::tokens::{Unread, tokens};
use occ_text::versions::Version;
use occ_types::limits::MAX_OPERATIONS;
use std::alloc::Allocator;

/// A transaction of a workload, as its line says it. Its tables are named and not yet found.
#[derive(Drop)]
pub(crate) struct Transaction<'a, A: Allocator> {
    /// The session, from 1 on.
    pub(crate) session: usize,
    /// What it does, in this order: 1 to 256 operations.
    pub(crate) operations: Vec<Operation<'a, A>, A>,
}

// A transaction of a session, which may not be numbered 0, of at most 256 operations.
fn transaction_with<'a, A: Allocator>(
    session: usize,
    operations: Vec<Operation<'a, A>, A>,
) -> Result<Transaction<'a, A>, Unread>
    ensures { Gives transaction_of result (if_transaction session (map operation_of operations.entry.items)) }
{
    if session == 0 || operations.len() > MAX_OPERATIONS {
        return Err(Unread::Malformed);
    }
    Ok(Transaction {
        session,
        operations,
    })
}

// The transaction of some tokens.
#[tactic(auto, unfolding(crate::specs::TransactionLines::transaction_of_tokens))]
fn transaction_of_parts<'a, A: Allocator + Copy>(
    alloc: A,
    version: Version,
    sessions: usize,
    mut parts: Parts<'a>,
) -> Result<Transaction<'a, A>, Unread>
    ensures { Gives transaction_of result (transaction_of_tokens version sessions parts.entry) }
{
    next_word(&mut parts, "txn").ok_or(Unread::Malformed)?;
    let session = next_number(&mut parts, sessions as u64).ok_or(Unread::Malformed)?;
    let operations = operations(alloc, version, parts)?;
    transaction_with(session as usize, operations)
}

#[tactic(auto, unfolding(crate::specs::TransactionLines::transaction_of_line))]
fn transaction_value<'a, A: Allocator + Copy>(
    alloc: A,
    version: Version,
    sessions: usize,
    line: &'a [u8],
) -> Result<Transaction<'a, A>, Unread>
    ensures { Gives transaction_of result (transaction_of_line version sessions line.now) }
{
    let parts = tokens(line).ok_or(Unread::Malformed)?;
    transaction_of_parts(alloc, version, sessions, parts)
}

/// A transaction of a workload of this version with so many sessions, from its line without the line feed. `Malformed` where the line
/// is none; `Memory` where it was refused for a key, a row or a list of operations.
pub(crate) fn read_transaction<'a, A: Allocator + Copy>(
    alloc: A,
    version: Version,
    sessions: usize,
    line: &'a [u8],
) -> Result<Transaction<'a, A>, Unread>
    ensures exact { Gives transaction_of result (transaction_of_line version sessions line.now) }
    ensures found { IfOk result (λ transaction. (line.now ≡ transaction_text (transaction_of transaction)) × TransactionFits version sessions (transaction_of transaction)) }
    ensures again { (transaction : plain.Transaction) → TransactionFits version sessions transaction → line.now ≡ transaction_text transaction → Gives transaction_of result (Some transaction) }
{
    transaction_value(alloc, version, sessions, line)
}
