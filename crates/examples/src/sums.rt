use frames::buses::mix;
use frames::samples::{Frame, Part, UNITY, clamp, divide, scale};
use reels::clicks::Clicks;
use reels::tracks::Reel;

fn part(sample: i16, gain: i16) -> Part {
    Part {
        frame: Frame {
            left: sample,
            right: sample,
        },
        gain,
    }
}

#[test]
fn scaling_rounds_down(rt: HostRuntime) {
    assert_eq!(rt; scale(1, 8192), 0);
    assert_eq!(rt; scale(-1, 8192), -1);
    assert_eq!(rt; scale(-32768, -32768), 65536);
    assert_eq!(rt; divide(-16385), -2);
}

#[test]
fn clamping_takes_the_nearest_sample(rt: HostRuntime) {
    assert_eq!(rt; clamp(32768), 32767);
    assert_eq!(rt; clamp(-40000), -32768);
    assert_eq!(rt; clamp(-5), -5);
}

#[test]
fn a_bus_clamps_once(rt: HostRuntime) {
    let parts = [part(30000, UNITY), part(30000, UNITY), part(-30000, UNITY)];
    let both = Frame {
        left: 30000,
        right: 30000,
    };
    assert_eq!(rt; mix(&parts), Some(both));
    assert_eq!(rt; mix(&[part(1, UNITY); 49]), None);
}

#[test]
fn a_click_ends_its_track(rt: HostRuntime) {
    let reel = Clicks;
    assert_eq!(rt; reel.length(0), 1);
    assert_eq!(rt; reel.length(7), 57);
    assert_eq!(rt; reel.length(8), 0);
    let click = Frame {
        left: 16000,
        right: -16000,
    };
    assert_eq!(rt; reel.frame(2, 16), click);
    assert_eq!(rt; reel.frame(2, 15), Frame::SILENCE);
    assert_eq!(rt; reel.frame(8, 64), Frame::SILENCE);
}
