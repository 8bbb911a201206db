// Plays a session of 16 nodes, 48 lines and eight units, four of them late, and prints a checksum of the frames; and the
// same with 15 of the lines. With a number it plays so many frames of the first, and with `few` after that of the second, so
// that the cost of a frame can be counted. With `end` it plays one bus to the end of the position, and what comes then.
#![tactic(auto)]

use anyhow::anyhow;
use console::consoles::Console;
use console::faults::ConsoleFault;
use frames::refusals::Fault;
use frames::samples::Frame;
use racks::interface::Rack;
use racks::session_rack::session_rack;
use session::sessions::Session;
use std::alloc::{AllocError, Global};
use std::env;
use text::reader::read;

mod dense;

use crate::dense::Dense;

const NODES: &[u8] =
    b"session 1 48000\nunit 0 fir 31 -100 60 -40 120 -200 300 -150 80 400 -600 900 -700 500 1500 2500 6000 2600 1400 -450 -800 950 -550 350 90 -160 310 -210 130 -30 50 -110\nunit 1 fir 31 7 -14 21 -35 70 -140 280 -420 560 -700 840 -980 1120 -1260 2800 9000 -2700 1250 -1130 970 -850 690 -570 410 -290 130 -80 25 -31 4 -17\nunit 2 limit 63 20000\nunit 3 limit 63 12000\nunit 4 pan 100\nunit 5 pan 200\nunit 6 delay 63\nunit 7 delay 17\nlayer 0 trim 15000\nlayer 1 trim -14000\nlayer 2 trim 18000\nlayer 3 trim 16000\nlayer 4 trim 12000\nlayer 5 trim -9000\nlayer 6 trim 20000\nlayer 7 trim 7000\nlayer 3 bypass\nlayer 5 bypass\nnode 0 bus\nnode 1 bus\nnode 2 bus unit 6\nnode 3 bus\nnode 4 bus unit 3\nnode 5 bus unit 2\nnode 6 bus unit 1\nnode 7 bus unit 0\nnode 8 track 0 unit 4\nnode 9 track 1 unit 5\nnode 10 track 2 unit 7\nnode 11 track 3\nnode 12 track 4\nnode 13 track 5\nnode 14 track 6\nnode 15 track 7\n";

const CHAIN: &[u8] =
    b"line 8 7 4000\nline 9 7 -3000\nline 10 7 5000\nline 11 7 2500\nline 12 7 -6000\nline 13 7 3500\nline 14 7 7000\nline 15 7 -4500\nline 7 6 16384\nline 6 5 12000\nline 5 4 -16384\nline 4 3 15000\nline 3 2 9000\nline 2 1 -11000\nline 1 0 13000\n";

const SENDS: &[u8] =
    b"line 8 0 1500\nline 9 0 -2500\nline 10 0 3000\nline 11 0 -1000\nline 12 0 2000\nline 13 0 -3500\nline 14 0 1200\nline 15 0 800\nline 8 1 -1000\nline 9 1 2000\nline 10 1 -3500\nline 11 1 1200\nline 12 1 800\nline 13 1 1500\nline 14 1 -2500\nline 15 1 3000\nline 8 3 -3500\nline 9 3 1200\nline 10 3 800\nline 11 3 1500\nline 12 3 -2500\nline 13 3 3000\nline 14 3 -1000\nline 15 3 2000\nline 7 0 2000\nline 6 0 -3000\nline 5 0 4000\nline 4 0 5000\nline 3 0 -2500\nline 2 0 6000\nline 7 3 -4000\nline 6 1 3300\nline 5 3 2700\n";

const BUS: &[u8] = b"session 1 48000\nnode 0 bus\n";

// A session's text from its parts.
fn written(heap: Global, nodes: &[u8], lines: &[u8], more: &[u8]) -> Result<Vec<u8>, AllocError> {
    let mut text = Vec::new(heap);
    text.extend_from_slice(nodes)?;
    text.extend_from_slice(lines)?;
    text.extend_from_slice(more)?;
    text.extend_from_slice(b"end\n")?;
    Ok(text)
}

fn done(answer: Result<(), ConsoleFault>) -> anyhow::Result<()> {
    answer.map_err(|_| anyhow!("the console refuses"))
}

// A checksum goes on over one sample more.
fn with_sample(sum: u32, sample: i16) -> u32 {
    sum.wrapping_mul(31)
        .wrapping_add(u32::from(sample.cast_unsigned()))
}

// A checksum goes on over more frames.
fn summed(sum: u32, frames: &[Frame]) -> u32 {
    frames.iter().fold(sum, |sum, frame| {
        with_sample(with_sample(sum, frame.left), frame.right)
    })
}

// A console with a session, a tape and a buffer, and the checksum so far.
#[derive(Drop)]
struct Bench {
    console: Console,
    session: Session,
    tape: Vec<Frame>,
    out: Vec<Frame>,
    sum: u32,
}

impl Bench {
    fn new(heap: Global) -> Result<Bench, AllocError> {
        let tape = vec![in heap; Frame::SILENCE; 16384]?;
        let out = vec![in heap; Frame::SILENCE; 4096]?;
        Ok(Bench {
            console: Console::new(),
            session: Session::empty(heap),
            tape,
            out,
            sum: 0,
        })
    }

    fn read(&mut self, heap: Global, text: &[u8]) -> anyhow::Result<()> {
        read(text, &mut self.session, heap).map_err(|_| anyhow!("the text is refused"))
    }

    fn play<R: Rack>(&mut self, rack: &mut R) -> Result<(), ConsoleFault> {
        self.console
            .play(rack, &Dense, &mut self.tape, &mut self.out)
    }

    // So many whole buffers.
    fn play_on<R: Rack>(&mut self, rack: &mut R, plays: u32) -> anyhow::Result<()> {
        for _ in 0..plays {
            done(self.play(rack))?;
            self.sum = summed(self.sum, &self.out);
        }
        Ok(())
    }

    // So many frames from the beginning; then what a play of one frame more answers.
    fn run<R: Rack + Drop>(
        &mut self,
        mut rack: R,
        frames: u32,
    ) -> anyhow::Result<Result<(), ConsoleFault>> {
        done(self.console.start(&self.session, &mut rack, &mut self.tape))?;
        self.play_on(&mut rack, frames / 4096)?;
        self.out.truncate((frames % 4096) as usize);
        self.play_on(&mut rack, 1)?;
        self.out.resize(1, Frame::SILENCE)?;
        Ok(self.play(&mut rack))
    }

    fn run_session(&mut self, frames: u32) -> anyhow::Result<Result<(), ConsoleFault>> {
        let rack = session_rack(&self.session);
        self.run(rack, frames)
    }
}

// The checksum of a text's first frames, and what a play of one frame more answers.
fn ran(heap: Global, text: &[u8], frames: u32) -> anyhow::Result<(u32, Result<(), ConsoleFault>)> {
    let mut bench = Bench::new(heap)?;
    bench.read(heap, text)?;
    let next = bench.run_session(frames)?;
    Ok((bench.sum, next))
}

fn print(rt: &HostRuntime, more: &[u8], frames: u32) -> anyhow::Result<()> {
    let text = written(rt.alloc(), NODES, CHAIN, more)?;
    let (sum, _) = ran(rt.alloc(), &text, frames)?;
    println!(rt; "{frames} frames {sum:08x}")?;
    Ok(())
}

fn print_end(rt: &HostRuntime) -> anyhow::Result<()> {
    let text = written(rt.alloc(), BUS, b"", b"")?;
    match ran(rt.alloc(), &text, 1073741824)? {
        (_, Ok(())) => println!(rt; "one frame more is played")?,
        (_, Err(fault)) => {
            let refusal = fault.refusal();
            println!(rt; "1073741824 frames, then {refusal}")?;
        }
    }
    Ok(())
}

fn run(rt: &HostRuntime) -> anyhow::Result<()> {
    let mut args = env::args(rt)?.skip(1);
    let Some(first) = args.next() else {
        print(rt, SENDS, 10000)?;
        return print(rt, b"", 10000);
    };
    if first.as_str() == "end" {
        return print_end(rt);
    }
    let frames = first.as_str().parse::<u32>()?;
    match args.next() {
        Some(_) => print(rt, b"", frames),
        None => print(rt, SENDS, frames),
    }
}

fn main(rt: HostRuntime) -> anyhow::Result<()> {
    run(&rt)
}
