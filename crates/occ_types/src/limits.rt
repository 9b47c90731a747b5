//! How large things may be. Every limit is our own choice.
ghost use Rattle.std.specs.Prelude.{◌≡◌, ◌^◌, ◌-◌};

/// Sessions of a text, numbered from 1. A program opens a store with any number that memory has room for.
pub const MAX_SESSIONS: usize = 64;
/// Items that wait in a queue, in a text.
pub const MAX_QUEUE: usize = 1024;
/// Write sets that a text may ask to keep for testing.
pub const MAX_KEEP: usize = 4096;
/// Tables of a schema; it has at least one.
pub const MAX_TABLES: usize = 32;
/// Columns of a table; it has at least one.
pub const MAX_COLUMNS: usize = 8;
/// Letters of a table's name; it has at least one.
pub const MAX_NAME_LETTERS: usize = 16;
/// Bytes of a text key.
pub const MAX_KEY_BYTES: usize = 64;
/// Bytes of a text cell.
pub const MAX_CELL_BYTES: usize = 256;
/// Keys that a transaction writes.
pub const MAX_WRITES: usize = 256;
/// Questions of a read set; a repeated one counts again.
pub const MAX_QUESTIONS: usize = 256;
/// Operations of a run alone.
pub const MAX_OPERATIONS: usize = 256;
/// Rows in the table's answer to one range.
pub const MAX_ANSWER_ROWS: usize = 1024;
/// Rows that stand in the log.
pub const MAX_LOG_ROWS: usize = 1048576;
/// The transaction counter.
pub const MAX_COUNTER: u64 = 4294967295;
/// Session numbers; the last one is for a closing mark alone.
pub const MAX_NUMBER: u64 = 1073741823;
/// How far above the due number a number may be that has a read phase.
pub const READ_AHEAD: u64 = 1025;

/// The limits, as the numbers that they are.
pub fn limits_are_these()
    ensures sessions { MAX_SESSIONS ≡ 64 }
    ensures tables { MAX_TABLES ≡ 32 }
    ensures columns { MAX_COLUMNS ≡ 8 }
    ensures name_letters { MAX_NAME_LETTERS ≡ 16 }
    ensures key_bytes { MAX_KEY_BYTES ≡ 64 }
    ensures cell_bytes { MAX_CELL_BYTES ≡ 256 }
    ensures writes { MAX_WRITES ≡ 256 }
    ensures questions { MAX_QUESTIONS ≡ 256 }
    ensures operations { MAX_OPERATIONS ≡ 256 }
    ensures answer_rows { MAX_ANSWER_ROWS ≡ 1024 }
    ensures log_rows { MAX_LOG_ROWS ≡ 2 ^ 20 }
    ensures counter { MAX_COUNTER ≡ 2 ^ 32 - 1 }
    ensures number { MAX_NUMBER ≡ 2 ^ 30 - 1 }
    ensures read_ahead { READ_AHEAD ≡ 1025 }
    ensures queue { MAX_QUEUE ≡ 1024 }
    ensures keep { MAX_KEEP ≡ 4096 }
{}
