// What holds of the definitions that contracts cite: ten worked examples of the console's rules, placing and sweeps, and
// files.
#![tactic(auto)]

ghost use Rattle.std.specs.Prelude.{◌≡◌, true};
ghost use Rattle.worked.specs.Examples.{TenExamples};

// A theorem and its proof stand apart from the call, so that a call which denies it is refused for that alone.
mod proved;

// The ten examples are right.
pub fn ten_examples_hold() -> bool
    ensures answer { result ≡ true }
    ensures ten_examples { TenExamples }
{
    proved::ten()
}
