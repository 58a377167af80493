// The values at known places, for every first root and for as many places as there are syndromes.
ghost use Rattle.std.specs.Prelude.{◌≡◌, ℕ, ◌+◌, ◌<◌, length, slice_index};
ghost use Rattle.algebra.specs.Lines.{Elements};
ghost use Rattle.solving.specs.Sequences.{terms};
ghost use Rattle.errors.specs.Places.{IsErrorValue, IsCorrected, Fixes};
ghost use Rattle.correcting.specs.Corrections.{places_of, values_of};

use crate::correction::Correction;
use crate::received::WrongPlaces;
use arrayvec::ArrayVec;
use fields::Field;
use reed_solomon::power;

// Takes one place out of the power sums: each becomes the next one plus x times itself, which multiplies the weight at
// every place by its locator plus x, and so the weight at x by 0. The last sum is lost.
fn peel<F: Field>(s: &mut [u8], x: u8)
    requires elements { Elements F.Field.meaning s.old }
    ensures elements { Elements F.Field.meaning s.new }
    ensures sums { (k : ℕ) → k + 1 < length s.old
        → slice_index s.new k ≡ F.Field.meaning.add (slice_index s.old (k + 1)) (F.Field.meaning.mul x (slice_index s.old k)) }
{
    // By index: each step reads the place after the one that it writes.
    for k in 1..s.len() {
        s[k - 1] = F::sum(s[k], F::product(x, s[k - 1]));
    }
}

impl<F: Field> WrongPlaces<'_, F> {
    // The error value at the j-th place: the others are peeled off one by one, and their factors, with x^b, divided out.
    fn error_value(&self, sums: &mut [u8], j: usize) -> u8
        requires within { j < length self.now.places.now }
        requires long { length sums.old ≡ length self.now.places.now }
        requires elements { Elements F.Field.meaning sums.old }
        ensures element { result < F.Field.meaning.q }
        ensures value { IsErrorValue F.Field.meaning self.now.received.now.code.now.numbers.root self.now.received.now.table.now sums.old
            self.now.places.now j result }
    {
        let table = self.received.table;
        let x = table[self.places[j] as usize];
        let mut over = 1;
        for (i, place) in self.places.iter().enumerate() {
            if i != j {
                let y = table[*place as usize];
                peel::<F>(sums, y);
                over = F::product(over, F::sum(x, y));
            }
        }
        let b = self.received.code.numbers().root;
        F::product(sums[0], F::inverse(F::product(over, power::<F>(x, b))))
    }

    // The corrected byte at the j-th place: as many syndromes are used as there are places.
    fn corrected(&self, j: usize) -> u8
        requires { j < length self.now.places.now }
        ensures { IsCorrected F.Field.meaning self.now.received.now.code.now.numbers.root self.now.received.now.line.now self.now.received.now.table.now
            (terms self.now.received.now.syndromes.now) self.now.places.now j result }
    {
        let n = self.places.len();
        let mut sums = [0; 32];
        let sums = &mut sums[..n];
        sums.copy_from_slice(&self.received.syndromes.terms()[..n]);
        F::sum(
            self.received.line[self.places[j] as usize],
            self.error_value(sums, j),
        )
    }

    // The corrected bytes at all the places.
    pub(crate) fn corrections(&self) -> ArrayVec<Correction, 32>
        ensures places { places_of result.items ≡ self.now.places.now }
        ensures values { Fixes F.Field.meaning self.now.received.now.code.now.numbers.root self.now.received.now.line.now self.now.received.now.table.now
            (terms self.now.received.now.syndromes.now) self.now.places.now (values_of result.items) }
    {
        let mut corrections = ArrayVec::new();
        for (j, place) in self.places.iter().enumerate() {
            corrections.push(Correction {
                place: *place,
                value: self.corrected(j),
            });
        }
        corrections
    }
}
