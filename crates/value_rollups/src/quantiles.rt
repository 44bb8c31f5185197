// The rollup of quantiles.rs.

ghost use Rattle.std.specs.Prelude.{◌≡◌, ◌*◌, ◌≤◌, length};
ghost use Rattle.quantile.specs.Quantile.{quantile_of};
ghost use Rattle.ieee.specs.Patterns.{floats};

use window::types::RollupFuncArg;

// The quantile phi of the values.
pub fn rollup_quantile(rfa: RollupFuncArg, values: &[u64], work: &mut [f64], phi: f64) -> f64
    requires { 2 * length values.now ≤ length work.old }
    ensures { result ≡ quantile_of phi (floats values.now) }
{
    quantile::quantile(phi, values, work)
}
