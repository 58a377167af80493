// Tests of line codes on examples: long lines of several codes and fields, beside a second decoder of another method.

#![tactic(auto)]

#[cfg(test)]
mod peterson;
#[cfg(test)]
mod samples;
#[cfg(test)]
mod tests;
