//! The line of operations that ran alone.
ghost use Rattle.std.specs.Fmt.{decimal};
ghost use Rattle.std.specs.Prelude.{◌≡◌, ◌++◌, OnOk, codes, length, map, string_bytes};
ghost use Rattle.std.specs.List.{flat_map};
ghost use Rattle.occ_sets.specs.PlainSets.{answer_of, rows_of};
ghost use Rattle.occ_types.specs.PlainData.{key_of};
ghost use Rattle.occ_cli.specs.Answers.{answer_token, pair_text};

use crate::pairs::write_pairs;
use occ_sets::Answer;
use occ_text::writers::{write_counted, write_row};
use occ_types::{Key, Row};
use std::alloc::{AllocError, Allocator};

/// Appends the transaction number of operations that ran alone, and what they read: one token for each, in their order.
///
/// - `row:ROW` or `none`: the row of a key, if there is one;
/// - `rows:K` and K times `:KEY=ROW`: the rows of a range, in the order of the keys.
pub(crate) fn write_ran_alone<A: Allocator>(
    line: &mut String<A>,
    number: u64,
    answers: &[Answer<A>],
) -> Result<(), AllocError>
    ensures { OnOk result (string_bytes line.new ≡ string_bytes line.old ++ ((codes "finished " ++ decimal number) ++ flat_map answer_token (map answer_of answers.now))) }
{
    write_counted(line, "finished ", number)?;
    write_tokens(line, answers)
}

// Appends the tokens of answers, each after a space.
fn write_tokens<A: Allocator>(line: &mut String<A>, answers: &[Answer<A>]) -> Result<(), AllocError>
    ensures { OnOk result (string_bytes line.new ≡ string_bytes line.old ++ flat_map answer_token (map answer_of answers.now)) }
{
    for answer in answers {
        write_token(line, answer)?;
    }
    Ok(())
}

// Appends the token of an answer, after a space.
fn write_token<A: Allocator>(line: &mut String<A>, answer: &Answer<A>) -> Result<(), AllocError>
    ensures { OnOk result (string_bytes line.new ≡ string_bytes line.old ++ answer_token (answer_of answer.now)) }
{
    match answer {
        Answer::Found(None) => line.push_str(" none"),
        Answer::Found(Some(row)) => {
            line.push_str(" row:")?;
            write_row(line, row)
        }
        Answer::Rows(rows) => write_range(line, rows.as_slice()),
    }
}

// Appends the token of a range's rows, after a space.
fn write_range<A: Allocator>(
    line: &mut String<A>,
    rows: &[(Key<A>, Row<A>)],
) -> Result<(), AllocError>
    ensures { OnOk result (string_bytes line.new ≡ string_bytes line.old ++ ((codes " rows:" ++ decimal (length (rows_of rows.now))) ++ flat_map (pair_text (codes ":")) (rows_of rows.now))) }
{
    write_counted(line, " rows:", rows.len() as u64)?;
    write_pairs(line, ":", rows)
}
