// A change of a byte, as a guard notes it.

// The place that was changed, and the byte that it had.
#[derive(Clone, Copy, PartialEq, Eq, Debug, Default)]
pub struct Change {
    pub place: u8,
    pub old: u8,
}
