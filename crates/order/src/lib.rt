// Rust's orders of floats, by which lists are sorted, and the lesser and the greater of two numbers.
#![tactic(auto)]

ghost use Rattle.std.specs.Prelude.{◌≡◌, cond};
ghost use Rattle.std.specs.Float.Ieee.{lt};

// `partial_cmp` of values that are no NaN, where the zeros are equal, and
// `total_cmp`, where −0.0 goes before 0.0 and NaN after all else.
#[derive(Clone, Copy, PartialEq, Eq, Debug)]
pub enum Order {
    Partial,
    Total,
}

// The lesser of two numbers, the first of equals: of these `f64::min` may give either.
pub fn lesser(x: f64, y: f64) -> f64
    ensures { result ≡ cond (lt y x) y x }
{
    if y < x { y } else { x }
}

// The greater of two numbers, the second of equals: of these `f64::max` may give either.
pub fn greater(x: f64, y: f64) -> f64
    ensures { result ≡ cond (lt y x) x y }
{
    if y < x { x } else { y }
}
