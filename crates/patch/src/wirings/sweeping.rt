ghost use Rattle.std.specs.Prelude.{◌≡◌, ◌<◌, map, length};
ghost use Rattle.patch.specs.Sweeps.{Along, by_node, joined, SweptTo};
ghost use Rattle.patch.specs.Wirings.{wired};
ghost use Rattle.session.specs.Plan.{line, lines_into};

use crate::sweeps::Flow;
use crate::wirings::Wiring;

impl Wiring<'_> {
    // What node `v` hears: the joined values of the starts of its lines in.
    fn hear<F: Flow>(&self, kind: &F, values: &[F::Value; 16], v: u8) -> F::Value
        requires { v < 16 }
        ensures { result ≡ joined (F.Flow.kind kind.now) (map (λ i. by_node (F.Flow.kind kind.now) values.now (line (wired self.now) i).start) (lines_into (wired self.now) v)) }
    {
        // As `map` and `reduce` it was tried: the bound of `values`, whether the chain can be asked, and what it gives stayed open.
        let mut heard = None;
        for i in self.inputs.lines_into(usize::from(v)) {
            let start = usize::from(self.lines[usize::from(i)].start);
            let value = values[start];
            heard = Some(heard.map_or(value, |before| kind.join(before, value)));
        }
        heard.unwrap_or(kind.start())
    }

    // One value for each node, along an order. Each line is looked at once.
    pub(crate) fn sweep<F: Flow>(&self, kind: &F, order: &[u8]) -> [F::Value; 16]
        requires { Along self.now.lines.now order.now }
        ensures length { length result ≡ 16 }
        ensures swept { SweptTo (F.Flow.kind kind.now) self.now.lines.now order.now (length order.now) (by_node (F.Flow.kind kind.now) result) }
    {
        let mut values = [kind.start(); 16];
        for v in order {
            let heard = self.hear(kind, &values, *v);
            values[usize::from(*v)] = kind.step(*v, heard);
        }
        values
    }
}
