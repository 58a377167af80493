// Why a line is corrected rightly: definitions and proofs about wrong places and their values, over every field.
// Nothing here computes: the decoder's contracts and proofs cite it.

#![tactic(auto)]
