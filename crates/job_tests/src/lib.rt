// Tests of jobs over small codes of other makes than Reed–Solomon: each is one list of calls.

#![tactic(auto)]

#[cfg(test)]
mod tests;
