//! What the program is asked to do.

use bac_stream::Mode;

/// What the program is asked to do with its standard input: a file of records, or for `Pack` and `Read` a text.
#[derive(Clone, Copy, Debug, PartialEq, Eq)]
pub enum Job {
    /// A line for each record: what it says, or why it is refused.
    Show(Mode),
    /// A line for each record: whether it is canonical, tolerated or refused.
    Check(Mode),
    /// The canonical octets of each record, as a record.
    Normalise(Mode),
    /// A record for each line of hexadecimal digits.
    Pack,
    /// A record for each line that `show` writes.
    Read,
    /// Lines for each record: what each of its octets is.
    Explain(Mode),
}
