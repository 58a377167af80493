// A recurrence of the first syndromes, as the Berlekamp–Massey method makes it.
ghost use Rattle.std.specs.Prelude.{◌≡◌};
ghost use Rattle.arrayvec.specs.ArrayVec.{array_vec_len};

use arrayvec::ArrayVec;

// `locator` is the polynomial of a shortest recurrence, and `length` its length. `previous` is the locator before the last
// change of length, times a power of x; `scale` is the discrepancy that it had, and `longer` the length that the next change
// would give.
#[derive(Drop)]
pub(crate) struct Recurrence {
    pub(crate) locator: ArrayVec<u8, 34>,
    pub(crate) previous: ArrayVec<u8, 34>,
    pub(crate) length: usize,
    pub(crate) longer: usize,
    pub(crate) scale: u8,
    ghost same: { array_vec_len previous ≡ array_vec_len locator },
}
