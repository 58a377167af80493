// Two small line codes of other makes: what is promised over every line code is not about Reed–Solomon alone.

#![tactic(auto)]

mod repetition;
mod shown;
mod small;
mod wordless;

pub use crate::repetition::{AllEqual, Repetition};
pub use crate::shown::{leave_alone, recover_repeated};
pub use crate::small::{Rule, Small};
pub use crate::wordless::{NoCodewords, Wordless};
