// The theory of delay compensation: signals, the mix, patches, and what holds of every aligned patch. Each function's
// contract is a theorem.
#![tactic(auto)]

ghost use Rattle.signals.specs.Examples.{Comb, HeldLonger};
ghost use Rattle.signals.specs.Theorems.{OneAnswer, MovesInTime, OneIdeal, OneUnder, AlignedIsIdeal, OneLateness, OursIsAligned, OneArrival, OursIsLeast, DelaysStayShort};
ghost use Rattle.std.specs.Prelude.{◌≡◌, true};

// A theorem and its proof stand apart from the call, so that a call which denies it is refused for that alone.
mod proved;

// What a unit makes of a signal does not depend on where one begins to listen.
pub fn units_make_one_answer<X>() -> bool
    ensures answer { result ≡ true }
    ensures one_answer { OneAnswer X }
{
    proved::one_answer::<X>()
}

// It moves in time with the signal.
pub fn units_move_in_time<X>() -> bool
    ensures answer { result ≡ true }
    ensures moves_in_time { MovesInTime X }
{
    proved::in_time::<X>()
}

// One family of ideal signals, and one under each patch.
pub fn signals_are_determined() -> bool
    ensures answer { result ≡ true }
    ensures one_ideal { OneIdeal }
    ensures one_under { OneUnder }
{
    proved::determined()
}

// Under every aligned patch each node gives its ideal signal, later by its lateness there.
pub fn aligned_patches_give_the_mix() -> bool
    ensures answer { result ≡ true }
    ensures aligned_is_ideal { AlignedIsIdeal }
{
    proved::the_mix()
}

// Our latenesses are determined, and our patch is aligned.
pub fn our_patch_is_aligned() -> bool
    ensures answer { result ≡ true }
    ensures one_lateness { OneLateness }
    ensures ours_is_aligned { OursIsAligned }
{
    proved::aligned()
}

// No aligned patch has any node less late than ours.
pub fn our_patch_is_the_least_late() -> bool
    ensures answer { result ≡ true }
    ensures one_arrival { OneArrival }
    ensures ours_is_least { OursIsLeast }
{
    proved::least_late()
}

// Our patch delays no line by more than 945 frames.
pub fn our_delays_stay_short() -> bool
    ensures answer { result ≡ true }
    ensures delays_stay_short { DelaysStayShort }
{
    proved::short()
}

// A patch that is not aligned gives something else than the mix: a comb of three frames.
pub fn unaligned_patches_comb() -> bool
    ensures answer { result ≡ true }
    ensures comb { Comb }
{
    proved::comb()
}

// A patch that holds every line a frame longer than ours is aligned, and later.
pub fn longer_patches_are_later() -> bool
    ensures answer { result ≡ true }
    ensures held_longer { HeldLonger }
{
    proved::held_longer()
}
