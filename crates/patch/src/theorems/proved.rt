// A theorem and its proof stand apart from the call, so that a call which denies it, or leaves it out, is refused for that alone.
ghost use Rattle.std.specs.Prelude.{◌≡◌, true};
ghost use Rattle.patch.specs.Examples.{Worked};
ghost use Rattle.patch.specs.Placing.{OneOrder, OrderedIsPlaced, PlacedIsOrdered};
ghost use Rattle.patch.specs.Sweeps.{OneSweep};

pub(crate) fn placing() -> bool
    ensures answer { result ≡ true }
    ensures one_order { OneOrder }
    ensures placed_is_ordered { PlacedIsOrdered }
    ensures ordered_is_placed { OrderedIsPlaced }
{
    true
}

pub(crate) fn one_sweep<X>() -> bool
    ensures answer { result ≡ true }
    ensures one_sweep { OneSweep X }
{
    true
}

pub(crate) fn examples() -> bool
    ensures answer { result ≡ true }
    ensures worked { Worked }
{
    true
}
