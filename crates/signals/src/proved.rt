// The theorems, each on a function of its own that names its proof in proofs/proved/.
ghost use Rattle.signals.specs.Examples.{Comb, HeldLonger};
ghost use Rattle.signals.specs.Theorems.{OneAnswer, MovesInTime, OneIdeal, OneUnder, AlignedIsIdeal, OneLateness, OursIsAligned, OneArrival, OursIsLeast, DelaysStayShort};
ghost use Rattle.std.specs.Prelude.{◌≡◌, true};

pub(crate) fn one_answer<X>() -> bool
    ensures answer { result ≡ true }
    ensures one_answer { OneAnswer X }
{
    true
}

pub(crate) fn in_time<X>() -> bool
    ensures answer { result ≡ true }
    ensures moves_in_time { MovesInTime X }
{
    true
}

pub(crate) fn determined() -> bool
    ensures answer { result ≡ true }
    ensures one_ideal { OneIdeal }
    ensures one_under { OneUnder }
{
    true
}

pub(crate) fn the_mix() -> bool
    ensures answer { result ≡ true }
    ensures aligned_is_ideal { AlignedIsIdeal }
{
    true
}

pub(crate) fn aligned() -> bool
    ensures answer { result ≡ true }
    ensures one_lateness { OneLateness }
    ensures ours_is_aligned { OursIsAligned }
{
    true
}

pub(crate) fn least_late() -> bool
    ensures answer { result ≡ true }
    ensures one_arrival { OneArrival }
    ensures ours_is_least { OursIsLeast }
{
    true
}

pub(crate) fn short() -> bool
    ensures answer { result ≡ true }
    ensures delays_stay_short { DelaysStayShort }
{
    true
}

pub(crate) fn comb() -> bool
    ensures answer { result ≡ true }
    ensures comb { Comb }
{
    true
}

pub(crate) fn held_longer() -> bool
    ensures answer { result ≡ true }
    ensures held_longer { HeldLonger }
{
    true
}
