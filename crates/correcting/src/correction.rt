// A byte to be written where a line is wrong.

// The place, and the corrected byte there.
#[derive(Clone, Copy, PartialEq, Eq, Debug, Default)]
pub(crate) struct Correction {
    pub(crate) place: u8,
    pub(crate) value: u8,
}
