// The solver: its promise is all that a line code knows of it.
ghost use Rattle.solving.specs.Sequences.{terms};
ghost use Rattle.solving.specs.Solving.{Solves, FreeChoice};

use crate::polynomial::Polynomial;
use crate::sequence::Syndromes;
use fields::Field;

// Finds the polynomial whose roots are the inverses of the locators that explain a sequence of syndromes.
// What it answers on a sequence that nothing so short explains is its free choice.
pub trait Solver<F: Field> {
    fn solve(syndromes: &Syndromes) -> Option<Polynomial>
        ensures solves { Solves F.Field.meaning (terms syndromes.now) result }
        ensures choice { FreeChoice F.Field.meaning (terms syndromes.now) result };
}
