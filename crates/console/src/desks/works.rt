ghost use Rattle.std.specs.Prelude.{◌≡◌, ◌+◌, ◌<◌, ◌≤◌, map, length, pos, ◌-ℤ◌};
ghost use Rattle.console.specs.Desks.{desk_plan};
ghost use Rattle.frames.proofs.Totals.{AddsUp};
ghost use Rattle.patch.specs.Patches.{delay_of, ordered_nodes};
ghost use Rattle.playing.specs.Tape.{on_tape, slot};
ghost use Rattle.playing.specs.Work.{after_frames, deck, frame_work, frames_out, given, hears, moved, node_work};
ghost use Rattle.session.specs.Plan.{lines_into, node};
ghost use Rattle.signals.specs.Signals.{brought};

use crate::desks::{Desk, Tape};
use frames::samples::{Frame, Part};
use frames::sums::Sum;
use racks::interface::Rack;
use reels::tracks::Reel;
use session::nodes::{Node, Source};

// Where node `v`'s frame of `delay` frames before frame `n` stands on the tape.
pub(crate) fn place(v: u8, n: u32, delay: u16) -> usize
    requires { v < 16 }
    ensures { result ≡ slot v (pos n -ℤ pos delay) }
{
    1024 * usize::from(v) + (n as usize + 65536 - usize::from(delay)) % 1024
}

// A node's unit, if it has one, steps on what the node hears.
fn through<R: Rack>(rack: &mut R, node: Node, heard: Frame) -> Frame
    ensures value { result ≡ given (R.units rack.old) node.unit heard }
    ensures after { R.units rack.new ≡ moved (R.units rack.old) node.unit heard }
{
    // A match shows that the rack changes; a closure would hide it.
    match node.unit {
        Some(s) => rack.step(s, heard),
        None => heard,
    }
}

// A node is a number and its bound a clause: no type could say of which desk it is a node.
// Rack, reel and tape are parameters: over a struct that lends them each clause would name the references in it.
impl Desk {
    // How many nodes there are.
    pub(crate) fn node_count(&self) -> usize
        ensures { result ≡ length (desk_plan self.now).nodes }
    {
        self.nodes.len()
    }

    // How long line `i` is held.
    fn delay(&self, i: u8) -> u16
        requires { i < length self.now.lines.items }
        ensures { result ≡ delay_of self.now.patch i }
    {
        self.patch.delays()[usize::from(i)]
    }

    // What line `i` brings at frame `n`.
    fn part(&self, tape: &Tape, n: u32, i: u8) -> Part
        requires { i < length self.now.lines.items }
        ensures { result ≡ brought (desk_plan self.now) (delay_of self.now.patch) (on_tape tape.now) (pos n) i }
    {
        let line = self.lines[usize::from(i)];
        let at = place(line.start, n, self.delay(i));
        Part {
            frame: tape[at],
            gain: line.gain,
        }
    }

    // What the lines into node `v` bring at frame `n`, added on each side.
    fn added(&self, tape: &Tape, n: u32, v: u8) -> Sum
        requires { v < 16 }
        ensures { AddsUp result (map (brought (desk_plan self.now) (delay_of self.now.patch) (on_tape tape.now) (pos n)) (lines_into (desk_plan self.now) v)) }
    {
        let mut sum = Sum::new();
        for i in self.patch.inputs().lines_into(usize::from(v)) {
            let _ = sum.add(self.part(tape, n, i));
        }
        sum
    }

    fn node(&self, v: u8) -> Node
        requires { v < length self.now.nodes.items }
        ensures { result ≡ node (desk_plan self.now) v }
    {
        self.nodes[usize::from(v)]
    }

    // What node `v` hears at frame `n`.
    fn hears<L: Reel>(&self, reel: &L, tape: &Tape, n: u32, v: u8) -> Frame
        requires { v < length self.now.nodes.items }
        ensures { result ≡ hears (desk_plan self.now) (delay_of self.now.patch) (L.tracks reel.now) tape.now n v }
    {
        match self.node(v).source {
            Source::Track(track) => reel.frame(track, n),
            Source::Bus => self.added(tape, n, v).frame(),
        }
    }

    // The work on node `v` at frame `n`.
    fn play_node<R: Rack, L: Reel>(&self, rack: &mut R, reel: &L, tape: &mut Tape, n: u32, v: u8)
        requires { v < length self.now.nodes.items }
        ensures { deck (R.units rack.new) tape.new ≡ node_work (desk_plan self.now) (delay_of self.now.patch) (L.tracks reel.now) n (deck (R.units rack.old) tape.old) v }
    {
        let heard = self.hears(reel, tape, n, v);
        let given = through(rack, self.node(v), heard);
        tape[place(v, n, 0)] = given;
    }

    // The work on frame `n`, on each node in the order placed.
    fn play_frame<R: Rack, L: Reel>(&self, rack: &mut R, reel: &L, tape: &mut Tape, n: u32)
        ensures { deck (R.units rack.new) tape.new ≡ frame_work (desk_plan self.now) (ordered_nodes self.now.patch) (delay_of self.now.patch) (L.tracks reel.now) n (deck (R.units rack.old) tape.old) }
    {
        for v in self.patch.order() {
            self.play_node(rack, reel, tape, n, *v);
        }
    }

    // The work on frame `n`, and then node 0's frame goes to a place of a buffer.
    fn fill_frame<R: Rack, L: Reel>(
        &self,
        rack: &mut R,
        reel: &L,
        tape: &mut Tape,
        frame: &mut Frame,
        n: u32,
    )
        ensures deck { deck (R.units rack.new) tape.new ≡ frame_work (desk_plan self.now) (ordered_nodes self.now.patch) (delay_of self.now.patch) (L.tracks reel.now) n (deck (R.units rack.old) tape.old) }
        ensures frame { frame.new ≡ on_tape tape.new 0 (pos n) }
    {
        self.play_frame(rack, reel, tape, n);
        *frame = tape[place(0, n, 0)];
    }

    // Node 0's frames from frame `n` on fill a buffer.
    pub(crate) fn fill<R: Rack, L: Reel>(
        &self,
        rack: &mut R,
        reel: &L,
        tape: &mut Tape,
        out: &mut [Frame],
        n: u32,
    )
        requires { n + length out.old ≤ 1073741824 }
        ensures deck { deck (R.units rack.new) tape.new ≡ after_frames (desk_plan self.now) (ordered_nodes self.now.patch) (delay_of self.now.patch) (L.tracks reel.now) (length out.old) n (deck (R.units rack.old) tape.old) }
        ensures out { out.new ≡ frames_out (desk_plan self.now) (ordered_nodes self.now.patch) (delay_of self.now.patch) (L.tracks reel.now) (length out.old) n (deck (R.units rack.old) tape.old) }
    {
        for (k, frame) in out.iter_mut().enumerate() {
            self.fill_frame(rack, reel, tape, frame, n + k as u32);
        }
    }
}
