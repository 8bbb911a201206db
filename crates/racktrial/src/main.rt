// Steps each unit of a session's rack over four frames, and prints what it answers; then the units past the sixteenth of
// three such racks as one.
#![tactic(auto)]

use anyhow::anyhow;
use frames::samples::Frame;
use racks::interface::Rack;
use racks::latest::latest_unit;
use racks::pair::Pair;
use racks::session_rack::session_rack;
use session::sessions::Session;
use text::reader::read;
use units::interface::Unit;

const TEXT: &[u8] =
    b"session 1 48000\nunit 0 fir 3 4096 8192 4096\nunit 1 fir 1 16384\nunit 2 limit 1 10000\nunit 3 limit 0 1\nunit 4 pan 0\nunit 5 pan 128\nunit 6 delay 2\nunit 7 delay 1\nlayer 0 trim 8192\nlayer 1 trim -16384\nlayer 2 bypass\nlayer 5 trim 30000\nlayer 6 trim 32767\nlayer 6 bypass\nnode 0 bus\nend\n";

fn answers<R: Rack>(rt: &HostRuntime, rack: &mut R, s: u8) -> anyhow::Result<()> {
    print!(rt; "unit {s}, {} late:", rack.lateness(s))?;
    for (left, right) in [(16000, -16000), (5000, 20000), (-32768, 7), (0, 0)] {
        let answer = rack.step(s, Frame { left, right });
        print!(rt; " {},{}", answer.left, answer.right)?;
    }
    println!(rt; "")?;
    Ok(())
}

fn units<R: Rack>(rt: &HostRuntime, rack: &mut R, from: u8, to: u8) -> anyhow::Result<()> {
    println!(rt;
        "{} units, the latest {} late",
        rack.count(),
        latest_unit(rack)
    )?;
    for s in from..to {
        answers(rt, rack, s)?;
    }
    Ok(())
}

fn one(rt: &HostRuntime, session: &Session) -> anyhow::Result<()> {
    let mut rack = session_rack(session);
    units(rt, &mut rack, 0, 9)
}

fn three(rt: &HostRuntime, session: &Session) -> anyhow::Result<()> {
    let first = Pair {
        first: session_rack(session),
        second: session_rack(session),
    };
    let mut all = Pair {
        first,
        second: session_rack(session),
    };
    units(rt, &mut all, 14, 18)
}

fn run(rt: &HostRuntime) -> anyhow::Result<()> {
    let mut session = Session::empty(rt.alloc());
    read(TEXT, &mut session, rt.alloc()).map_err(|_| anyhow!("the text is refused"))?;
    one(rt, &session)?;
    three(rt, &session)
}

fn main(rt: HostRuntime) -> anyhow::Result<()> {
    run(&rt)
}
