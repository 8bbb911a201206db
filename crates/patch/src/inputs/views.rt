ghost use Rattle.std.specs.Prelude.{◌≡◌};
ghost use Rattle.patch.specs.Inputs.{first_into, next_after};

use crate::inputs::Inputs;

impl Inputs {
    // The first line into a node.
    pub fn first_into(&self, v: usize) -> Option<u8>
        ensures { result ≡ first_into self.now v }
    {
        self.first.get(v).copied().flatten()
    }

    // After a line, the next one into the same node.
    pub fn next_after(&self, i: usize) -> Option<u8>
        ensures { result ≡ next_after self.now i }
    {
        self.next.get(i).copied().flatten()
    }
}
