ghost use Rattle.std.specs.Prelude.{◌≡◌, ◌<◌, List, [], ◌++◌, length, if◌then◌else◌, Ok, Err, nat_lt};
ghost use Rattle.console.specs.Answers.{by_answer};
ghost use Rattle.console.specs.Calls.{Played, Rewound, Started, Told};
ghost use Rattle.console.specs.Histories.{Claim, History};
ghost use Rattle.console.specs.Points.{console_patch, console_plan, point};
ghost use Rattle.frames.specs.declared.samples.Frame.{Frame};
ghost use Rattle.patch.specs.Patches.{delays, feeder_sets, feeders_of, ordered_nodes};
ghost use Rattle.patch.specs.declared.faults.PatchFault.TheVariants.{NotDeclared};
ghost use Rattle.reels.specs.Tracks.{Tracks};
ghost use Rattle.voices.specs.Meaning.{Meaning};

use crate::consoles::Console;
use crate::desks::Desk;
use crate::faults::ConsoleFault;
use frames::samples::Frame;
use patch::faults::PatchFault;
use racks::interface::Rack;
use reels::tracks::Reel;
use session::sessions::Session;

// Rack, reel, tape and buffer are lent for one call: a history may go on with others, and its clauses name each.
impl Console {
    // A console that holds the empty session.
    pub fn new() -> Console
        ensures nodes { (console_plan result).nodes ≡ [] }
        ensures lines { (console_plan result).lines ≡ [] }
        ensures order { ordered_nodes (console_patch result) ≡ [] }
        ensures position { result.position ≡ 0 }
    {
        Console {
            desk: Desk::empty(),
            position: 0,
        }
    }

    // Places a session's nodes, makes our patch of it and the rack, and goes to the beginning.
    pub fn start<R: Rack>(
        &mut self,
        session: &Session,
        rack: &mut R,
        tape: &mut [Frame],
    ) -> Result<(), ConsoleFault>
        ensures promise { Started session.now (point self.old (R.units rack.old) tape.old) (point self.new (R.units rack.new) tape.new) result }
        ensures beginning { result ≡ Ok tt → (reel : Tracks) → Claim reel (point self.new (R.units rack.new) tape.new) [] }
        ensures history { (reel : Tracks) (heard : List Frame) → History reel (point self.old (R.units rack.old) tape.old) heard → Claim reel (point self.new (R.units rack.new) tape.new) (by_answer result [] heard) }
    {
        self.begin(session, rack, tape)
    }

    // Fills a buffer with node 0's next frames, and moves the position by its length.
    pub fn play<R: Rack, L: Reel>(
        &mut self,
        rack: &mut R,
        reel: &L,
        tape: &mut [Frame],
        out: &mut [Frame],
    ) -> Result<(), ConsoleFault>
        ensures promise { Played (L.tracks reel.now) (point self.old (R.units rack.old) tape.old) (point self.new (R.units rack.new) tape.new) out.old out.new result }
        ensures history { (heard : List Frame) → History (L.tracks reel.now) (point self.old (R.units rack.old) tape.old) heard → Claim (L.tracks reel.now) (point self.new (R.units rack.new) tape.new) (by_answer result (heard ++ out.new) heard) }
    {
        self.go_on(rack, reel, tape, out)
    }

    // Goes back to the beginning.
    pub fn rewind<R: Rack>(&mut self, rack: &mut R, tape: &mut [Frame]) -> Result<(), ConsoleFault>
        ensures promise { Rewound (point self.old (R.units rack.old) tape.old) (point self.new (R.units rack.new) tape.new) result }
        ensures history { (reel : Tracks) (heard : List Frame) → History reel (point self.old (R.units rack.old) tape.old) heard → Claim reel (point self.new (R.units rack.new) tape.new) (by_answer result [] heard) }
    {
        self.go_back(rack, tape)
    }

    // How late a node is.
    pub fn lateness(&self, v: usize) -> Result<u16, PatchFault>
        ensures promise { (units : List (Meaning Frame)) (tape : List Frame) → Told (point self.now units tape) v result }
        ensures history { (reel : Tracks) (units : List (Meaning Frame)) (tape heard : List Frame) → History reel (point self.now units tape) heard → Claim reel (point self.now units tape) heard }
    {
        self.late(v)
    }

    // The nodes that feed a node, itself included: bit v for node v.
    pub fn feeders(&self, v: usize) -> Result<u16, PatchFault>
        ensures { result ≡ (if nat_lt v (length (feeder_sets (console_patch self.now))) then Ok (feeders_of (console_patch self.now) v) else Err (NotDeclared v)) }
    {
        self.desk.patch.feeders(v)
    }

    // How many frames each line is held.
    pub fn delays(&self) -> &[u16]
        ensures { result.now ≡ delays (console_patch self.now) }
    {
        self.desk.patch.delays()
    }
}
