// Steps one unit of each kind over some frames and prints a checksum of its answers. With a kind's name and a number it
// steps that kind so often, so that the cost of a step can be counted.
#![tactic(auto)]

use frames::samples::Frame;
use std::env;
use units::bypass::Bypass;
use units::delay::Delay;
use units::fir::Fir;
use units::interface::Unit;
use units::limit::Limit;
use units::pan::Pan;
use units::settings::{
    BypassSettings, DelaySettings, FirSettings, LimitSettings, PanSettings, TrimSettings,
};
use units::trim::Trim;

// A frame that rises and falls.
fn frame(n: u32) -> Frame {
    let x = (n.wrapping_mul(7919) % 30000) as i16;
    Frame { left: x, right: -x }
}

// The checksum of a unit's answers.
fn checksum<U: Unit>(unit: &mut U, count: u32) -> u32 {
    let mut sum: u32 = 0;
    for n in 0..count {
        let f = unit.step(frame(n));
        sum = sum.wrapping_mul(31).wrapping_add(
            u32::from(f.left.cast_unsigned()) ^ u32::from(f.right.cast_unsigned()),
        );
    }
    sum
}

fn kind(name: &str, count: u32) -> Option<u32> {
    let limit = LimitSettings {
        lookahead: 63,
        ceiling: 10000,
    };
    match name {
        "fir" => Some(checksum(
            &mut Fir::new(FirSettings {
                taps: [500; 31],
                count: 31,
            }),
            count,
        )),
        "limit" => Some(checksum(&mut Limit::new(limit), count)),
        "pan" => Some(checksum(&mut Pan::new(PanSettings { position: 100 }), count)),
        "delay" => Some(checksum(&mut Delay::new(DelaySettings { frames: 63 }), count)),
        "bypass" => Some(checksum(
            &mut Bypass::new(Limit::new(limit), BypassSettings { on: true }),
            count,
        )),
        "trim" => Some(checksum(
            &mut Trim::new(
                Delay::new(DelaySettings { frames: 63 }),
                TrimSettings { gain: 8192 },
            ),
            count,
        )),
        _ => None,
    }
}

fn run(rt: &HostRuntime) -> anyhow::Result<()> {
    let mut args = env::args(rt)?.skip(1);
    if let (Some(name), Some(count)) = (args.next(), args.next()) {
        if let Some(sum) = kind(name.as_str(), count.as_str().parse::<u32>()?) {
            println!(rt; "{name} {sum:08x}")?;
        }
        return Ok(());
    }
    for name in ["fir", "limit", "pan", "delay", "bypass", "trim"] {
        if let Some(sum) = kind(name, 1000) {
            println!(rt; "{name} {sum:08x}")?;
        }
    }
    Ok(())
}

fn main(rt: HostRuntime) -> anyhow::Result<()> {
    run(&rt)
}
