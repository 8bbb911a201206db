ghost use Rattle.std.specs.Prelude.{◌≡◌, true};
ghost use Rattle.patch.specs.Examples.{Worked};
ghost use Rattle.patch.specs.Placing.{OneOrder, OrderedIsPlaced, PlacedIsOrdered};
ghost use Rattle.patch.specs.Sweeps.{OneSweep};

mod proved;

// The order of placing is the one that its rule determines. It has all nodes exactly where there is an order in which
// every line's start comes before its end.
pub fn placing_is_exact() -> bool
    ensures answer { result ≡ true }
    ensures one_order { OneOrder }
    ensures placed_is_ordered { PlacedIsOrdered }
    ensures ordered_is_placed { OrderedIsPlaced }
{
    proved::placing()
}

// A sweep's values are determined.
pub fn sweeps_are_determined<X>() -> bool
    ensures answer { result ≡ true }
    ensures one_sweep { OneSweep X }
{
    proved::one_sweep::<X>()
}

// What placing and sweeps give for three small sessions.
pub fn examples_work_out() -> bool
    ensures answer { result ≡ true }
    ensures worked { Worked }
{
    proved::examples()
}
