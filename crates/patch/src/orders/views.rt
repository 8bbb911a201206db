ghost use Rattle.std.specs.Prelude.{◌≡◌, ◌<◌, ◌≤◌, not, [], ◌∷◌, ◌++◌, length};
ghost use Rattle.patch.specs.Orders.{listed};
ghost use Rattle.patch.specs.Placing.{lowest, stands};

use crate::orders::Order;
use arrayvec::ArrayVec;

impl Order {
    // Nothing is placed.
    pub(crate) fn empty() -> Order
        ensures { listed result ≡ [] }
    {
        Order {
            nodes: ArrayVec::new(),
            placed: [false; 16],
        }
    }

    // The nodes, each after those that it hears.
    pub fn nodes(&self) -> &[u8]
        ensures { result.now ≡ listed self.now }
    {
        self.nodes.as_slice()
    }

    pub(crate) fn len(&self) -> usize
        ensures value { result ≡ length (listed self.now) }
        ensures fits { result ≤ 16 }
    {
        self.nodes.len()
    }

    pub(crate) fn has(&self, v: usize) -> bool
        ensures { result ≡ stands (listed self.now) v }
    {
        self.placed.get(v).copied().unwrap_or(false)
    }

    // The lowest of so many nodes that is not placed.
    pub(crate) fn lowest_missing(&self, nodes: usize) -> Option<usize>
        ensures { result ≡ lowest (λ v. not (stands (listed self.now) v)) nodes }
    {
        (0..nodes).find(|v| !self.has(*v))
    }

    pub(crate) fn push(&mut self, v: u8)
        requires node { v < 16 }
        requires room { length (listed self.old) < 16 }
        ensures { listed self.new ≡ listed self.old ++ v ∷ [] }
    {
        self.nodes.push(v);
        self.placed[usize::from(v)] = true;
    }
}
