// What units mean: their voices, the laws that every unit keeps, and the rules of the four kinds and the two layers.
#![tactic(auto)]

ghost use Rattle.std.specs.Prelude.{◌≡◌, true};
ghost use Rattle.voices.specs.Examples.{Examples};

// A theorem and its proof stand apart from the call, so that a call which denies it is refused for that alone.
mod proved;

// The worked examples of the kinds, as facts of their definitions.
pub fn examples_hold() -> bool
    ensures answer { result ≡ true }
    ensures examples { Examples }
{
    proved::examples()
}
