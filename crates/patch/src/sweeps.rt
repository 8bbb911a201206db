ghost use Rattle.std.specs.Prelude.{◌≡◌, ◌<◌};
ghost use Rattle.patch.specs.Sweeps.{JoinLaws, Kind};

// A kind of value that goes along the lines: a start value, a join, and what each node makes of a value.
pub trait Flow {
    type Value: Copy;

    ghost kind: { Self → Kind Self.Value };

    ghost laws: { (s : Self) → JoinLaws (kind s).join };

    fn start(&self) -> Self::Value
        ensures { result ≡ (kind self.now).start };

    fn join(&self, a: Self::Value, b: Self::Value) -> Self::Value
        ensures { result ≡ (kind self.now).join a b };

    // A set of nodes has 16 bits.
    // A node is a plain number and its bound a clause, since a patch's lists are public and of plain numbers.
    fn step(&self, v: u8, x: Self::Value) -> Self::Value
        requires { v < 16 }
        ensures { result ≡ (kind self.now).step v x };
}
