//! What a script reader gives: the next instant, or why there is none.

use fr_core::Inputs;

/// Why a line is bad.
#[derive(Clone, Copy, Debug, PartialEq, Eq)]
pub enum LineKind {
    /// It isn't blank and isn't a time, a name and a value.
    Grammar,
    /// Its name is no input's and no event's of the program.
    Name,
    /// Its source was set at the same time already.
    Twice,
    /// Its time is 0, above 9,223,372,036,854,775,807 or below the last time.
    Time,
    /// Its value doesn't read as one datum.
    Value,
    /// It has more than 65,536 bytes without its newline.
    Long,
    /// It reaches beyond the script's first 1,099,511,627,776 bytes, or begins an instant behind 4,294,967,295 others.
    Many,
}

/// What a script reader gives next.
#[derive(Drop)]
pub enum Turn {
    /// The next instant, which is whole.
    Instant(Inputs),
    /// The bytes so far close no further instant.
    More,
    /// The script has ended, and all its instants were given.
    End,
    /// The script's first bad line, which counts from 1.
    Refused { line: u64, kind: LineKind },
}
