// A received line, while its wrong places are looked for.
ghost use Rattle.std.specs.Prelude.{ℕ, ◌<◌, ◌≤◌, length, slice_index};
ghost use Rattle.solving.specs.Sequences.{terms};
ghost use Rattle.errors.specs.Received.{Received as IsReceived};

use fields::Field;
use reed_solomon::Line;
use solving::Syndromes;

// A line of elements as long as its code, the locators of its places, and its syndromes.
#[derive(Drop)]
pub(crate) struct Received<'a, F: Field> {
    pub(crate) code: &'a Line<F>,
    pub(crate) line: &'a [u8],
    pub(crate) table: &'a [u8],
    pub(crate) syndromes: &'a Syndromes,
    ghost known: { IsReceived F.Field.meaning code.now.numbers line.now table.now (terms syndromes.now) },
}

// Places of a received line, no more than it has syndromes.
#[derive(Drop)]
pub(crate) struct WrongPlaces<'a, F: Field> {
    pub(crate) received: &'a Received<'a, F>,
    pub(crate) places: &'a [u8],
    ghost inside: { (i : ℕ) → i < length places.now → slice_index places.now i < length received.now.table.now },
    ghost enough: { length places.now ≤ length (terms received.now.syndromes.now) },
}
