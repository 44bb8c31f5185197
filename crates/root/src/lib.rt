// The correctly rounded square root.
#![tactic(auto)]

ghost use Rattle.std.specs.Prelude.{◌≡◌};
ghost use Rattle.root.specs.Root.{sqrt_of};

// The square root of x, to the nearest f64. A zero, the infinity and NaN are their own, and below zero it is NaN.
pub fn sqrt(x: f64) -> f64
    ensures { result ≡ sqrt_of x }
{
    x.sqrt()
}
