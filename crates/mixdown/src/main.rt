// Mixes the click reel's eight tracks at unity, writes the mix as mix.wav and lists its frames.
#![tactic(auto)]

use anyhow::anyhow;
use frames::samples::Frame;
use listing::hex::{push_frames, push_number};
use reels::clicks::Clicks;
use reels::tracks::Reel;
use reels::unity::mix_all;
use std::fs;
use std::io::Write;
use wave::writer::{head, write_frames};

const RATE: u32 = 48000;

// The whole file: the head, then the frames' bytes.
fn file_bytes(rt: &HostRuntime, frames: &[Frame], count: u32) -> anyhow::Result<Vec<u8>> {
    let mut body = vec![in rt.alloc(); 0u8; 4 * frames.len()]?;
    write_frames(frames, &mut body).map_err(|_| anyhow!("the frames do not fit their buffer"))?;
    let mut bytes = Vec::new(rt.alloc());
    bytes.extend_from_slice(&head(count, RATE))?;
    bytes.extend_from_slice(&body)?;
    Ok(bytes)
}

fn list(rt: &HostRuntime, frames: &[Frame], count: u32) -> anyhow::Result<()> {
    let mut text = Vec::new(rt.alloc());
    push_number(&mut text, count)?;
    text.push(b'\n')?;
    push_frames(&mut text, frames)?;
    rt.stdout().write_all(&text)?;
    Ok(())
}

// Each mixer saves for itself: a shared function would be public, and no contract can pin what a file takes.
fn save(rt: &HostRuntime, bytes: &[u8]) -> anyhow::Result<()> {
    fs::write(rt, "mix.wav", bytes).map_err(|e| anyhow!("mix.wav cannot be written: {e}"))
}

fn run(rt: &HostRuntime) -> anyhow::Result<()> {
    let reel = Clicks;
    let count = reel.length(7);
    let frames = mix_all(rt.alloc(), &reel, count)?;
    let bytes = file_bytes(rt, &frames, count)?;
    save(rt, &bytes)?;
    list(rt, &frames, count)?;
    eprintln!(rt; "wrote {count} frames at {RATE} Hz to mix.wav")?;
    Ok(())
}

fn main(rt: HostRuntime) -> anyhow::Result<()> {
    run(&rt)
}
