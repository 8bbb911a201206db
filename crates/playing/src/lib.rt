// What playing does, frame by frame, and that it gives the signals under the patch.
#![tactic(auto)]

ghost use Rattle.std.specs.Prelude.{◌≡◌, true};
ghost use Rattle.playing.specs.Theorems.{PlaysThePatch};

// A theorem and its proof stand apart from the call, so that a call which denies it is refused for that alone.
mod proved;

// Frame by frame, from rest and a silent tape, node 0's signal under the patch comes out.
pub fn playing_gives_the_patch() -> bool
    ensures answer { result ≡ true }
    ensures plays_the_patch { PlaysThePatch }
{
    proved::gives_the_patch()
}
