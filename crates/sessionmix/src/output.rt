use anyhow::anyhow;
use frames::samples::Frame;
use listing::hex::{push_frames, push_number};
use std::fs;
use std::io::Write;

// What is told of a mix before its frames.
#[derive(Clone, Copy)]
pub struct Summary {
    pub late: u16,
    pub frames: u32,
    pub feeders: u16,
}

// Prints the lateness, the number of frames and the feeders, and then each frame.
pub(crate) fn list(rt: &HostRuntime, summary: Summary, frames: &[Frame]) -> anyhow::Result<()> {
    let mut text = Vec::new(rt.alloc());
    push_number(&mut text, u32::from(summary.late))?;
    push_number(&mut text, summary.frames)?;
    push_number(&mut text, u32::from(summary.feeders))?;
    text.push(b'\n')?;
    push_frames(&mut text, frames)?;
    rt.stdout().write_all(&text)?;
    Ok(())
}

// Each mixer saves for itself: a shared function would be public, and no contract can pin what a file takes.
pub(crate) fn save(rt: &HostRuntime, bytes: &[u8]) -> anyhow::Result<()> {
    fs::write(rt, "mix.wav", bytes).map_err(|e| anyhow!("mix.wav cannot be written: {e}"))
}
