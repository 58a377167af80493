// The mathematics of Reed–Solomon codes, in specs/ and proofs/, over every field of the field interface.
// Nothing here computes: each function stands for the theorem that is its contract.

#![tactic(auto)]

ghost use Rattle.algebra.specs.Theorems.{ExchangeOfSums, FewRoots, FunctionalOverSyndromes, MinimumDistance, ShortestRecurrences};

// Two finite sums may be taken in either order.
pub fn sums_exchange()
    ensures { ExchangeOfSums }
{}

// A polynomial with n coefficients and n different roots is zero.
pub fn polynomials_have_few_roots()
    ensures { FewRoots }
{}

// A linear form of the syndromes is the sum of its polynomial's values at the locators, weighted by the symbols.
pub fn syndromes_are_a_functional()
    ensures { FunctionalOverSyndromes }
{}

// A line with at most c nonzero symbols and c zero syndromes in a row is zero.
pub fn light_lines_with_zero_syndromes_are_zero()
    ensures { MinimumDistance }
{}

// A recurrence that fails at a term, and one that does not, cannot both be short.
pub fn failing_recurrences_need_longer_ones()
    ensures { ShortestRecurrences }
{}
