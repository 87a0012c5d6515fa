ghost use Rattle.std.specs.Prelude.{◌≡◌, ◌≤◌, ◌^◌};

/// 2 to a power.
#[tactic(auto, using(crate::proofs::Powers::power_step, crate::proofs::Powers::power_fits))]
pub(crate) fn power_of_two(exponent: u64) -> u64
    requires { exponent ≤ 63 }
    ensures { result ≡ 2 ^ exponent }
{
    let mut result = 1;
    for step in 0..exponent {
        result = result * 2;
    }
    result
}
