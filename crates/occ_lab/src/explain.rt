//! `occ_lab explain`.

use crate::files::{name_of, tell_trouble};
use crate::fronts::read_text;
use crate::loads::{is_load, take_load, tell_refused};
use anyhow::Result;
use occ_run::workloads::Workload;
use occ_text::trouble::Trouble;
use occ_words::explaining::explain_text;
use occ_words::malformed_lines::say_malformed;
use occ_words::telling::{Style, Told};
use std::alloc::Global;
use std::io::{BufWriter, Write};

/// Says what is wrong with a schedule, a book or a workload, line by line, or as objects of JSON.
pub(crate) fn explain(rt: &HostRuntime, path: &str, json: bool) -> Result<u8> {
    let alloc = rt.alloc();
    let text = read_text(rt, path)?;
    let style = if json { Style::Json } else { Style::Text };
    let mut told = Told::new(alloc, name_of(path), style)?;
    match write_told(rt, text.as_slice(), &mut told) {
        Ok(true) => Ok(0),
        Ok(false) => Ok(3),
        Err(Trouble::Malformed(_)) => Ok(2),
        Err(trouble) => tell_trouble(rt, path, text.as_slice(), trouble),
    }
}

// Writes what is told of a text to standard output.
fn write_told(rt: &HostRuntime, text: &[u8], told: &mut Told) -> Result<bool, Trouble> {
    let Ok(mut out) = BufWriter::new(rt.alloc(), rt.stdout()) else {
        return Err(Trouble::Memory);
    };
    let ended = tell_text(rt.alloc(), text, told, &mut out);
    if out.flush().is_err() {
        return Err(Trouble::Write);
    }
    ended
}

// Tells what is wrong with a text, and answers whether nothing is.
fn tell_text<W: Write>(
    alloc: Global,
    text: &[u8],
    told: &mut Told,
    writer: &mut W,
) -> Result<bool, Trouble> {
    if !is_load(text) {
        return explain_text(alloc, text, told, writer);
    }
    let ended = match take_load(alloc, text) {
        Ok(workload) => tell_load(alloc, text, &workload, told),
        Err(Trouble::Malformed(number)) => {
            let saying = say_malformed(alloc, text, number)?;
            told.say(alloc, &saying)?;
            Err(Trouble::Malformed(number))
        }
        Err(trouble) => Err(trouble),
    };
    told.send(writer)?;
    ended
}

// Tells which operations of a workload are refused, and answers whether none is.
fn tell_load(
    alloc: Global,
    text: &[u8],
    workload: &Workload<Global>,
    told: &mut Told,
) -> Result<bool, Trouble> {
    let refused = tell_refused(alloc, text, workload, told)?;
    let transactions = workload.plans.len();
    let words = format!(in alloc; "transactions: {transactions}, of them refused: {refused}")?;
    told.end(words.as_str())?;
    Ok(refused == 0)
}
