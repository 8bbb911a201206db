ghost use Rattle.std.specs.Prelude.{◌≡◌, true};
ghost use Rattle.playing.specs.Theorems.{PlaysThePatch};

pub(crate) fn gives_the_patch() -> bool
    ensures answer { result ≡ true }
    ensures plays_the_patch { PlaysThePatch }
{
    true
}
