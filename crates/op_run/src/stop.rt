/// Why a run ended before its end.
#[derive(Clone, Copy, Debug, PartialEq, Eq)]
pub enum Stop {
    /// The source failed.
    Input,
    /// The source has more bytes than are read.
    Limit,
    /// A sink failed.
    Output,
    Memory,
}
