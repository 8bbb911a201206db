ghost use Rattle.std.specs.Prelude.{◌≡◌, true};
ghost use Rattle.worked.specs.Examples.{TenExamples};

pub(crate) fn ten() -> bool
    ensures answer { result ≡ true }
    ensures ten_examples { TenExamples }
{
    true
}
