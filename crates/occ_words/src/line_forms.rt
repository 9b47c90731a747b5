//! The forms of the lines of a text, spelled as the description of the formats spells them: a word, and letters for what has to stand behind it. What stands before `..` may stand again.

ghost use Rattle.std.specs.Prelude.{map};
ghost use Rattle.occ_words.specs.Forms.{EachSame, brought};

use crate::line_walk::token_at;
use occ_text::steps;
use occ_text::tokens::is_word;

/// The forms of the lines that may stand at one place.
pub type Forms = &'static [&'static str];

/// The first lines of a text: of a schedule or a book, and of a workload.
pub const FIRST: Forms = &["occ 1|2", "load 1|2"];

/// What may stand behind the first table of a text.
pub const BEHIND_TABLES: Forms = &["table NAME KEYKIND KIND ..", "steps", "log K", "base P L R"];

/// How many lines of which forms are to come behind the first line of a schedule or a book, the last ones first. Behind the tables they are those of a book.
pub const OF_SCHEDULE: &[(u64, Forms)] = &[
    (1, &["audit yes|no"]),
    (1, &["counter T low L"]),
    (1, &["state R"]),
    (1, &["marks M"]),
    (u64::MAX, BEHIND_TABLES),
    (1, &["table NAME KEYKIND KIND .."]),
    (1, &["keep 1..4096"]),
    (1, &["queue 1..1024"]),
    (1, &["sessions 1..64"]),
];

/// The same behind the first line of a workload.
pub const OF_WORKLOAD: &[(u64, Forms)] = &[
    (u64::MAX, &["txn S OP .."]),
    (u64::MAX, &["table NAME KEYKIND KIND ..", "begin"]),
    (1, &["table NAME KEYKIND KIND .."]),
    (1, &["retries 0..16"]),
    (1, &["validators 1..64"]),
    (1, &["keep 1..4096"]),
    (1, &["queue 1..1024"]),
    (1, &["sessions 1..64"]),
];

/// The lines that others bring behind them: the word of such a line, the index of the token that counts them, or 0 where there is none, and their forms. Where one line brings several, the last ones stand first.
const BROUGHT: &[(&str, usize, Forms)] = &[
    ("steps", 0, steps::FORMS),
    ("base", 0, &["log K"]),
    ("base", 3, &["from NAME KEY ROW"]),
    ("base", 2, &["last S N"]),
    ("log", 1, &["row PLACE S N START FINISH R W STANDING .."]),
    ("row", 7, &["put NAME KEY ROW", "del NAME KEY"]),
    ("row", 6, &["one NAME KEY ROW|none", "span NAME END END K"]),
    ("span", 4, &["pair KEY ROW"]),
    ("marks", 1, &["mark S N"]),
    ("state", 1, &["at NAME KEY ROW"]),
];

/// The same lines, whose forms are those of the grammar.
pub fn brought() -> &'static [(&'static str, usize, Forms)]
    ensures { EachSame (map (λ entry. map (λ form. form.now) entry.2.now) result.now) brought }
{
    BROUGHT
}

/// The word of a form.
pub fn head(form: &str) -> &[u8] {
    token_at(form.as_bytes(), 0)
}

/// The first of some forms that has this word, be its letters small or not.
pub fn form_of(forms: Forms, word: &[u8]) -> Option<&'static str> {
    for form in forms {
        if head(*form).eq_ignore_ascii_case(word) {
            return Some(*form);
        }
    }
    None
}

/// The words of all lines of schedules and books but the steps.
pub const OTHERS: Forms = &[
    "occ", "sessions", "queue", "keep", "table", "steps", "base", "last", "from", "log", "row",
    "one", "span", "pair", "del", "marks", "mark", "state", "at", "counter", "audit",
];

/// The words of the lines that workloads alone have.
pub const OF_WORKLOADS: Forms = &["validators", "retries", "txn"];

/// The words of the lines of a header whose order is fixed.
pub const IN_ORDER: Forms = &["sessions", "queue", "keep", "validators", "retries"];

/// What a count in a book counts: the word of such a line, and what it is in words.
pub const COUNTED: &[(&str, &str)] = &[
    ("last", "last numbers"),
    ("from", "rows of the base"),
    ("row", "rows"),
    ("one", "reads"),
    ("put", "writes"),
    ("pair", "rows of the range"),
    ("mark", "marks"),
    ("at", "rows of the state"),
];

/// What other stores have words for: the word, and that of a step or an operation here.
pub const MEANINGS: &[(&str, &str)] = &[
    ("insert", "put"),
    ("set", "put"),
    ("update", "put"),
    ("upsert", "put"),
    ("read", "get"),
    ("select", "get"),
    ("del", "delete"),
    ("remove", "delete"),
    ("inc", "add"),
    ("rollback", "abandon"),
    ("abort", "abandon"),
    ("commit", "submit"),
    ("start", "begin"),
];

/// What is wrong with a line of a word whose tokens each are what they have to be.
pub const UNFIT: &[(&str, &str)] = &[
    (
        "table",
        "a table before has this name, or it is the 33rd table, or it has over 8 columns",
    ),
    (
        "forge",
        "the number of a transaction is at most 4,294,967,295",
    ),
    (
        "rawread",
        "the number of a transaction is at most 4,294,967,295",
    ),
    ("base", "the place of a base is at least 1"),
    ("last", "the sessions don't rise"),
    ("mark", "the sessions don't rise"),
    (
        "from",
        "the table, key or row doesn't fit the header, or the lines don't rise by table and then key",
    ),
    (
        "at",
        "the table, key or row doesn't fit the header, or the lines don't rise by table and then key",
    ),
    (
        "row",
        "writing or done stands without its number, or more writes are done than the row has",
    ),
    ("one", "the table, key or row doesn't fit the header"),
    (
        "span",
        "the table or an end doesn't fit the header, or the lower end isn't below the upper one",
    ),
    (
        "pair",
        "the key or row doesn't fit the table, or the keys don't rise",
    ),
    (
        "put",
        "the table, key or row doesn't fit the header, or the row writes this key twice",
    ),
    (
        "del",
        "the table or key doesn't fit the header, or the row writes this key twice",
    ),
    ("steps", "no table stands before it"),
    (
        "txn",
        "it has over 256 operations, or all transactions with all their tries come to over 1,048,576 rows",
    ),
    (
        "load",
        "this is a workload: `occ run FILE` or `occ_lab run FILE` runs it, and `occ_lab explain FILE` says what is wrong with it",
    ),
    (
        "occ",
        "this is a schedule or a book, and no workload: `occ replay FILE` takes a schedule, `occ audit FILE` a book, and `occ_lab explain FILE` either",
    ),
];

/// The words of the answers that a replay begins with.
pub const ANSWERS: &[&str] = &[
    "begun", "ok", "queued", "closing", "entered", "empty", "closed", "finished", "folded",
    "counter", "refused", "none", "rows",
];

/// What a token has to be.
#[derive(Clone, Copy)]
pub enum Field {
    /// A decimal from the first number to the second one.
    Whole(u64, u64),
    /// One of some words.
    Words(&'static [&'static str]),
    /// The name of a table.
    Name,
    /// The kind of a table's keys.
    KeyKind,
    /// A key.
    Key,
    /// An end of a range.
    End,
    /// A row.
    Row,
    /// A row, or `none`.
    Found,
    /// An operation of a run alone.
    Operation,
    /// How far a row has come, or the number behind that.
    Standing,
}

/// What letters of a form stand for, and what that is in words.
const LETTERS: &[(&str, Field, &str)] = &[
    ("1|2", Field::Whole(1, 2), "the version, 1 or 2"),
    ("1..64", Field::Whole(1, 64), "a decimal, 1 to 64"),
    ("1..1024", Field::Whole(1, 1024), "a decimal, 1 to 1024"),
    ("1..4096", Field::Whole(1, 4096), "a decimal, 1 to 4096"),
    ("0..16", Field::Whole(0, 16), "a decimal, 0 to 16"),
    (
        "S",
        Field::Whole(0, 255),
        "a session, a decimal of at most 255",
    ),
    (
        "NAME",
        Field::Name,
        "the name of a table, 1 to 16 letters a to z",
    ),
    (
        "KEYKIND",
        Field::KeyKind,
        "the kind of the keys: num or text, in version 2 also two of them with + between",
    ),
    (
        "KIND",
        Field::Words(&["int", "text"]),
        "the kind of a column: int or text",
    ),
    (
        "KEY",
        Field::Key,
        "a key: a decimal, or ' and a text; in version 2 also two of them with + between",
    ),
    (
        "END",
        Field::End,
        "an end of a range: a key, in version 2 also *",
    ),
    (
        "ROW",
        Field::Row,
        "a row: cells with one comma between, each a whole number, or ' and a text",
    ),
    ("ROW|none", Field::Found, "a row, or none"),
    ("INT", Field::Row, "a whole number"),
    (
        "OP",
        Field::Operation,
        "an operation: get:NAME:KEY, scan:NAME:END:END, put:NAME:KEY:ROW, delete:NAME:KEY or add:NAME:KEY:INT",
    ),
    (
        "STANDING",
        Field::Standing,
        "how far the row has come: open, writing D, done TN, conflict or tooold",
    ),
    ("low", Field::Words(&["low"]), "the word low"),
    ("yes|no", Field::Words(&["yes", "no"]), "yes or no"),
];

/// The field that letters of a form stand for, and what it is in words. Letters that stand for nothing else stand for a decimal.
pub fn field_of(letters: &[u8]) -> (Field, &'static str) {
    for (spelled, field, meaning) in LETTERS {
        if is_word(letters, *spelled) {
            return (*field, *meaning);
        }
    }
    (Field::Whole(0, u64::MAX), "a decimal")
}
