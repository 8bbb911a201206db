ghost use Rattle.std.specs.Prelude.{◌≡◌, true};
ghost use Rattle.voices.specs.Examples.{Examples};

pub(crate) fn examples() -> bool
    ensures answer { result ≡ true }
    ensures examples { Examples }
{
    true
}
