use crate::inputs::Inputs;

// The numbers of the lines into a node, in order.
#[derive(Drop)]
pub struct LinesInto<'a> {
    inputs: &'a Inputs,
    at: Option<u8>,
}

impl<'a> Iterator for LinesInto<'a> {
    ghost use Rattle.std.specs.Iterator.{item_count, YieldsFirst};
    ghost use Rattle.patch.specs.Walks.{numbers_left};

    type Item = u8;

    ghost next_gives = { YieldsFirst numbers_left };

    ghost remaining = { item_count numbers_left };

    fn next(&mut self) -> Option<u8> {
        let i = self.at?;
        self.at = self.inputs.next_after(usize::from(i));
        Some(i)
    }
}

impl Inputs {
    ghost use Rattle.std.specs.Prelude.{◌≡◌};
    ghost use Rattle.patch.specs.Inputs.{first_into, next_after};
    ghost use Rattle.patch.specs.Walks.{numbers_left, walk};

    // The lines into a node.
    pub fn lines_into(&self, v: usize) -> LinesInto<'_>
        ensures { numbers_left result ≡ walk (next_after self.now) 49 (first_into self.now v) }
    {
        LinesInto {
            inputs: self,
            at: self.first_into(v),
        }
    }
}
