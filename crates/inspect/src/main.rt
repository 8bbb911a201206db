// Reads a session text from standard input and prints what the session holds, or the refusal.
#![tactic(auto)]

use frames::refusals::Fault;
use session::nodes::{Line, Node, Source};
use session::sessions::Session;
use session::settings::{Kind, Setting};
use std::io::Read;
use text::reader::read;
use units::settings::FirSettings;

// Printed here and not by Display: only this program writes these words.
fn print_fir(rt: &HostRuntime, s: usize, fir: &FirSettings) -> anyhow::Result<()> {
    print!(rt; "unit {s}: fir of {} taps:", fir.count)?;
    for tap in fir.taps.iter().take(usize::from(fir.count)) {
        print!(rt; " {tap}")?;
    }
    println!(rt; "")?;
    Ok(())
}

fn print_kind(rt: &HostRuntime, s: usize, kind: &Kind) -> anyhow::Result<()> {
    match kind {
        Kind::Fir(fir) => print_fir(rt, s, fir)?,
        Kind::Limit(limit) => println!(rt;
            "unit {s}: limit, lookahead {}, ceiling {}",
            limit.lookahead, limit.ceiling
        )?,
        Kind::Pan(pan) => println!(rt; "unit {s}: pan, position {}", pan.position)?,
        Kind::Delay(delay) => println!(rt; "unit {s}: delay of {} frames", delay.frames)?,
    }
    Ok(())
}

fn print_setting(rt: &HostRuntime, s: usize, setting: &Setting) -> anyhow::Result<()> {
    if let Some(kind) = setting.kind {
        print_kind(rt, s, &kind)?;
    }
    if let Some(gain) = setting.trim {
        println!(rt; "  trim {gain}")?;
    }
    if setting.bypass {
        println!(rt; "  bypass")?;
    }
    Ok(())
}

fn print_node(rt: &HostRuntime, v: usize, node: &Node) -> anyhow::Result<()> {
    match node.source {
        Source::Track(track) => print!(rt; "node {v}: track {track}")?,
        Source::Bus => print!(rt; "node {v}: bus")?,
    }
    if let Some(s) = node.unit {
        print!(rt; ", unit {s}")?;
    }
    println!(rt; "")?;
    Ok(())
}

fn print_line(rt: &HostRuntime, line: &Line) -> anyhow::Result<()> {
    let Line { start, end, gain } = line;
    println!(rt; "line from {start} to {end}, gain {gain}")?;
    Ok(())
}

fn print_session(rt: &HostRuntime, session: &Session) -> anyhow::Result<()> {
    println!(rt; "rate {}", session.rate())?;
    for s in 0..8 {
        print_setting(rt, s, &session.setting(s))?;
    }
    for (v, node) in session.nodes().iter().enumerate() {
        print_node(rt, v, node)?;
    }
    for line in session.lines() {
        print_line(rt, line)?;
    }
    Ok(())
}

fn run(rt: &HostRuntime) -> anyhow::Result<()> {
    let mut text = Vec::new(rt.alloc());
    rt.stdin().read_to_end(&mut text)?;
    let mut session = Session::empty(rt.alloc());
    match read(&text, &mut session, rt.alloc()) {
        Ok(()) => print_session(rt, &session),
        Err(fault) => {
            println!(rt; "{}", fault.refusal())?;
            Ok(())
        }
    }
}

fn main(rt: HostRuntime) -> anyhow::Result<()> {
    run(&rt)
}
