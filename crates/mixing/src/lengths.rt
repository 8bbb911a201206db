ghost use Rattle.std.specs.Prelude.{◌≡◌, ◌+◌, ◌≤◌};
ghost use Rattle.mixing.specs.Lengths.{longest, source_length};
ghost use Rattle.session.specs.Sessions.{held};

use reels::tracks::Reel;
use session::nodes::{Node, Source};
use session::sessions::Session;

// How many frames a node's source has: a track's length, 0 for a bus.
fn source_length<L: Reel>(source: Source, reel: &L) -> u32
    ensures { result ≡ source_length (L.tracks reel.now) source }
{
    match source {
        Source::Track(track) => reel.length(track),
        Source::Bus => 0,
    }
}

// The greatest length among the tracks of some nodes.
fn longest<L: Reel>(nodes: &[Node], reel: &L) -> u32
    ensures length { result ≡ longest (L.tracks reel.now) nodes.now }
    ensures bound { result ≤ 2147483647 }
{
    nodes
        .iter()
        .map(|node| source_length(node.source, reel))
        .max()
        .unwrap_or(0)
}

// How many frames a session's mix has that comes `late` frames late: the greatest length among its tracks, and the
// lateness.
pub fn mix_length<L: Reel>(session: &Session, reel: &L, late: u16) -> u32
    ensures { result ≡ longest (L.tracks reel.now) (held session.now).plan.nodes + late }
{
    longest(session.nodes(), reel) + u32::from(late)
}
