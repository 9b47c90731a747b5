//! The formats in short.

/// What `occ` takes, and the lines of schedules, books and workloads.
pub(crate) const FORMATS: &str = "\
occ replay [FILE] [--quiet]   a schedule: the answer to each step, the book, the audit line
occ run [FILE] [--book]       a workload: what became of each session, or the book, and the audit line
occ audit [FILE]              a book: the audit line

A text is lines; one space between two tokens, a line feed behind each line; no comments, no empty lines.
  S         a session, from 1 on          NAME      of a table, 1 to 16 letters a to z
  KEY       5, or ' and a text: 'ann; in version 2 also two of them: 5+'ann
  END       an end of a range: a KEY, in version 2 also *
  ROW       cells with a comma between: 5,-3,'some%20text
In a text a to z, A to Z, 0 to 9, _ - . stand for themselves, every other byte is % and two digits 0 to 9, a to f.
  OP        get:NAME:KEY, scan:NAME:END:END, put:NAME:KEY:ROW, delete:NAME:KEY, add:NAME:KEY:INT

A schedule                    A workload
  occ 1, or occ 2               load 1, or load 2
  sessions 1..64                sessions 1..64
  queue 1..1024                 queue 1..1024
  keep 1..4096                  keep 1..4096
                                validators 1..64
                                retries 0..16
  table NAME KEYKIND KIND ..    table NAME KEYKIND KIND ..
  steps                         begin
  then a step a line            then transactions: txn S OP ..
KEYKIND is num or text, in version 2 also num+num, num+text, text+num, text+text; KIND is int or text.

A step, and its answer; each may be answered `refused Fn`
  begin S                  begun N START      enter S       entered PLACE, closed, empty
  get S NAME KEY           row ROW, none      serial S      finished TN, backup CAUSE, closed, empty
  scan S NAME END END      rows K KEY=ROW ..  decide S      commit, backup CAUSE
  put S NAME KEY ROW       ok                 write S       wrote NAME KEY, nomore
  delete S NAME KEY        ok                 finish S      finished TN
  abandon S                ok                 backup S      backed N
  submit S                 queued N           checkpoint    folded K
  alone S OP ..            queued N           show          counter T low L log K state R active A
  close S                  closing N          forge S N START, rawread S N START NAME KEY

A book, as `occ replay --quiet` prints it: the header without `steps`, then
  base P L R, L lines last S N, R lines from NAME KEY ROW      where rows were folded
  log K, and K times a row with its reads and writes:
    row PLACE S N START FINISH READS WRITES STANDING           open, writing D, done TN, conflict, tooold
    one NAME KEY ROW|none; span NAME END END K, K lines pair KEY ROW; put NAME KEY ROW; del NAME KEY
  marks M, M lines mark S N; state R, R lines at NAME KEY ROW; counter T low L; audit yes|no
";
