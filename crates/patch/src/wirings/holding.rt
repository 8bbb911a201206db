ghost use Rattle.std.specs.Prelude.{◌≡◌, ℕ, ◌-◌, ◌<◌, length, slice_index};
ghost use Rattle.patch.specs.Wirings.{wired};
ghost use Rattle.session.specs.Plan.{line, node};
ghost use Rattle.signals.specs.Patches.{unit_late};

use crate::wirings::Wiring;
use arrayvec::ArrayVec;
use racks::interface::Rack;

impl Wiring<'_> {
    // How late node `v`'s unit is; 0 without one.
    fn lateness_at<R: Rack>(&self, rack: &R, v: usize) -> u8
        ensures { result ≡ unit_late (R.Rack.units rack.now) (node (wired self.now) v).unit }
    {
        let unit = self.nodes.get(v).and_then(|node| node.unit);
        unit.map_or(0, |unit| rack.lateness(unit))
    }

    // How late each node's unit is; 0 without one.
    pub(crate) fn unit_latenesses<R: Rack>(&self, rack: &R) -> [u8; 16]
        ensures length { length result ≡ 16 }
        ensures units { (v : ℕ) → v < 16 → slice_index result v ≡ unit_late (R.Rack.units rack.now) (node (wired self.now) v).unit }
    {
        std::array::from_fn(|v| self.lateness_at(rack, v))
    }

    // How long each line is held: until the latest of the starts into its end has come.
    pub(crate) fn delays(&self, late: &[u16; 16], units: &[u8; 16]) -> ArrayVec<u16, 48>
        ensures length { length result.items ≡ length self.now.lines.now }
        ensures held { (i : ℕ) → i < length self.now.lines.now → slice_index result.items i ≡ (slice_index late.now (line (wired self.now) i).end - slice_index units.now (line (wired self.now) i).end) - slice_index late.now (line (wired self.now) i).start }
    {
        let mut held = ArrayVec::new();
        for line in self.lines {
            let end = usize::from(line.end);
            let arrival = late[end].saturating_sub(u16::from(units[end]));
            held.push(arrival.saturating_sub(late[usize::from(line.start)]));
        }
        held
    }
}
