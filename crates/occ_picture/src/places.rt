//! Where columns stand in the bands of a compact picture, in pixels. Bands stand one below another, as lines of text do, and each has so many columns of the history.

/// How many columns a band has.
const COLUMNS: u64 = 70;
/// The width of a column.
const COLUMN: u64 = 16;
/// Where the first column of a band is.
const FIRST: u64 = 164;

/// Where a bar begins in a band that began in one above.
pub(crate) const LEFT: u64 = FIRST - COLUMN / 2;
/// Where a bar ends in a band that ends in one below.
pub(crate) const RIGHT: u64 = LEFT + COLUMNS * COLUMN;
/// The width of a picture.
pub(crate) const WIDTH: u64 = RIGHT + 40;

/// The band of a column.
pub(crate) fn band_of(column: u64) -> u64 {
    column / COLUMNS
}

/// Where a column is in its band.
pub(crate) fn x_of(column: u64) -> u64 {
    (column % COLUMNS)
        .saturating_mul(COLUMN)
        .saturating_add(FIRST)
}

/// How far a row is below the beginning of its lane: those with odd and even numbers apart, since a transaction may begin before the last one of its session ended.
pub(crate) fn track(number: u64) -> u64 {
    if number % 2 == 1 { 26 } else { 46 }
}
