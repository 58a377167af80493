// A second decoder, by Peterson, Gorenstein and Zierler: places and values from linear systems, solved by elimination.
ghost use Rattle.std.specs.Prelude.{◌≡◌, ◌+◌, ◌≤◌, length};
ghost use Rattle.arrayvec.specs.ArrayVec.{array_vec_len};

use crate::samples::Checks;
use arrayvec::ArrayVec;
use fields::Field;
use reed_solomon::power;

// A linear equation in at most 16 unknowns: their coefficients, and its right side.
#[derive(Clone, Copy, Default)]
struct Equation {
    coefficients: [u8; 16],
    right: u8,
}

impl Equation {
    fn coefficient(&self, column: usize) -> u8 {
        self.coefficients.get(column).copied().unwrap_or(0)
    }

    fn scale<F: Field>(&mut self, factor: u8) {
        for x in self.coefficients.iter_mut() {
            *x = F::product(factor, *x);
        }
        self.right = F::product(factor, self.right);
    }

    // Adds `factor` times another equation.
    fn add<F: Field>(&mut self, other: &Equation, factor: u8) {
        for (x, y) in self.coefficients.iter_mut().zip(other.coefficients) {
            *x = F::sum(*x, F::product(factor, y));
        }
        self.right = F::sum(self.right, F::product(factor, other.right));
    }
}

// As many equations as unknowns: each one's right side becomes the value of its unknown. `None` where there is no single solution.
fn solve<F: Field>(equations: &mut [Equation]) -> Option<()> {
    // By index: each step takes one unknown out of all the equations but one.
    for column in 0..equations.len() {
        let row = equations[column..]
            .iter()
            .position(|equation| equation.coefficient(column) != 0)?;
        equations.swap(column, column + row);
        let mut pivot = equations[column];
        pivot.scale::<F>(F::inverse(pivot.coefficient(column)));
        equations[column] = pivot;
        for (row, equation) in equations.iter_mut().enumerate() {
            if row != column {
                let factor = equation.coefficient(column);
                equation.add::<F>(&pivot, factor);
            }
        }
    }
    Some(())
}

// Syndrome i of a line, by Horner's rule.
fn syndrome<F: Field>(line: &[u8], root: u8, i: u8) -> u8 {
    let x = F::product(power::<F>(F::GENERATOR, root), power::<F>(F::GENERATOR, i));
    line.iter()
        .fold(0, |v, byte| F::sum(F::product(v, x), *byte))
}

// The syndromes of a line.
fn syndromes<F: Field>(line: &[u8], checks: Checks) -> ArrayVec<u8, 32>
    ensures { array_vec_len result ≡ checks.count }
{
    let mut s = ArrayVec::new();
    for i in 0..checks.count {
        s.push(syndrome::<F>(line, checks.root, i));
    }
    s
}

// The equations of v wrong places for the coefficients of the locator polynomial, the lowest first.
fn locator_equations(s: &[u8], v: usize) -> ArrayVec<Equation, 16>
    requires few { v ≤ 16 }
    requires half { v + v ≤ length s.now }
{
    let mut equations = ArrayVec::new();
    for (row, right) in s[v..v + v].iter().enumerate() {
        let mut equation = Equation {
            coefficients: [0; 16],
            right: *right,
        };
        equation.coefficients[..v].copy_from_slice(&s[row..row + v]);
        equations.push(equation);
    }
    equations
}

// The locator of place p of n.
fn locator<F: Field>(n: usize, p: usize) -> u8 {
    (p.saturating_add(1)..n).fold(1, |x, _| F::product(x, F::GENERATOR))
}

// Is the locator polynomial, whose coefficients below the highest are the equations' right sides, 0 at x?
fn vanishes<F: Field>(equations: &[Equation], x: u8) -> bool {
    equations
        .iter()
        .rev()
        .fold(1, |v, equation| F::sum(F::product(v, x), equation.right))
        == 0
}

// The wrong places: none where they are more than 16.
fn wrong_places<F: Field>(equations: &[Equation], n: usize) -> Option<ArrayVec<usize, 16>> {
    let mut places = ArrayVec::new();
    for p in 0..n {
        if vanishes::<F>(equations, locator::<F>(n, p)) {
            places.try_push(p).ok()?;
        }
    }
    Some(places)
}

// The equations of the values at these places: the sum of e_j X_j^(root + i) is syndrome i.
fn value_equations<F: Field>(
    s: &[u8],
    n: usize,
    root: u8,
    places: &[usize],
) -> ArrayVec<Equation, 16>
    requires few { length places.now ≤ 16 }
    requires enough { length places.now ≤ length s.now }
{
    let mut equations = ArrayVec::new();
    for (row, right) in s[..places.len()].iter().enumerate() {
        let mut equation = Equation {
            coefficients: [0; 16],
            right: *right,
        };
        for (coefficient, place) in equation.coefficients.iter_mut().zip(places) {
            let x = locator::<F>(n, *place);
            *coefficient = F::product(power::<F>(x, root), power::<F>(x, row as u8));
        }
        equations.push(equation);
    }
    equations
}

fn add_errors<F: Field>(line: &mut [u8], equations: &[Equation], places: &[usize]) {
    for (place, equation) in places.iter().zip(equations) {
        if let Some(byte) = line.get_mut(*place) {
            *byte = F::sum(*byte, equation.right);
        }
    }
}

// Tries v wrong places: `Some` where the line has become a codeword.
fn try_places<F: Field>(line: &mut [u8], checks: Checks, s: &[u8], v: usize) -> Option<()>
    requires few { v ≤ 16 }
    requires half { v + v ≤ length s.now }
{
    let mut equations = locator_equations(s, v);
    solve::<F>(equations.as_mut_slice())?;
    let places = wrong_places::<F>(&equations, line.len())?;
    if places.len() != v {
        return None;
    }
    let mut equations = value_equations::<F>(s, line.len(), checks.root, &places);
    solve::<F>(equations.as_mut_slice())?;
    add_errors::<F>(line, &equations, &places);
    if syndromes::<F>(line, checks).iter().all(|x| *x == 0) {
        return Some(());
    }
    add_errors::<F>(line, &equations, &places);
    None
}

// The places changed, or none where no codeword is in reach; the line has its old bytes then.
pub fn peterson<F: Field>(line: &mut [u8], checks: Checks) -> Option<u8> {
    if line.iter().any(|byte| u16::from(*byte) >= F::ELEMENTS) {
        return None;
    }
    let s = syndromes::<F>(line, checks);
    if s.iter().all(|x| *x == 0) {
        return Some(0);
    }
    for v in (1..=checks.count / 2).rev() {
        if try_places::<F>(line, checks, &s, v as usize).is_some() {
            return Some(v);
        }
    }
    None
}
