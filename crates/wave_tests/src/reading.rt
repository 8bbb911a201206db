ghost use Rattle.std.specs.Prelude.{◌≡◌, replicate, slice_set};

use frames::samples::Frame;
use wave::parts::TrackPart;
use wave::reader::{WaveFault, check_parts};
use wave::writer::head;

// Three frames at 44,100 Hz, as Python's module `wave` writes them: 258 −2, −32768 32767, 0 1.
const FILE: [u8; 56] = [
    0x52, 0x49, 0x46, 0x46, 0x30, 0x00, 0x00, 0x00, 0x57, 0x41, 0x56, 0x45, 0x66, 0x6d, 0x74, 0x20,
    0x10, 0x00, 0x00, 0x00, 0x01, 0x00, 0x02, 0x00, 0x44, 0xac, 0x00, 0x00, 0x10, 0xb1, 0x02, 0x00,
    0x04, 0x00, 0x10, 0x00, 0x64, 0x61, 0x74, 0x61, 0x0c, 0x00, 0x00, 0x00, 0x02, 0x01, 0xfe, 0xff,
    0x00, 0x80, 0xff, 0x7f, 0x00, 0x00, 0x01, 0x00,
];

const WHOLE: TrackPart = TrackPart {
    start: 0,
    length: 56,
};

// Eight parts, all empty but for track 5's.
fn at_five(part: TrackPart) -> [TrackPart; 8]
    ensures { result ≡ slice_set (replicate 8 (record { start = 0; length = 0 })) 5 part }
{
    let e = TrackPart::EMPTY;
    [e, e, e, e, e, part, e, e]
}

#[test]
fn the_head_is_the_stock_tools(rt: HostRuntime) {
    assert!(rt; head(3, 44100).as_slice() == &FILE[0..44]);
}

#[test]
fn a_stock_file_is_read_frame_by_frame(rt: HostRuntime) {
    assert_eq!(rt; check_parts(44100, &FILE, &at_five(WHOLE)), Ok(()));
    assert_eq!(rt; WHOLE.frames(&FILE), 3);
    let first = Frame {
        left: 258,
        right: -2,
    };
    let second = Frame {
        left: -32768,
        right: 32767,
    };
    let third = Frame { left: 0, right: 1 };
    assert_eq!(rt; WHOLE.frame(&FILE, 0), first);
    assert_eq!(rt; WHOLE.frame(&FILE, 1), second);
    assert_eq!(rt; WHOLE.frame(&FILE, 2), third);
    assert_eq!(rt; WHOLE.frame(&FILE, 3), Frame::SILENCE);
}

#[test]
fn one_part_may_be_used_twice(rt: HostRuntime) {
    assert_eq!(rt; check_parts(44100, &FILE, &[WHOLE; 8]), Ok(()));
}

#[test]
fn an_empty_part_may_start_anywhere(rt: HostRuntime) {
    let far = TrackPart {
        start: 18446744073709551615,
        length: 0,
    };
    assert_eq!(rt; check_parts(44100, &FILE, &at_five(far)), Ok(()));
}

#[test]
fn a_part_lies_in_the_buffer(rt: HostRuntime) {
    let late = TrackPart {
        start: 1,
        length: 56,
    };
    let huge = TrackPart {
        start: 18446744073709551615,
        length: 56,
    };
    let outside = Err(WaveFault::Outside(5));
    assert_eq!(rt; check_parts(44100, &FILE, &at_five(late)), outside);
    assert_eq!(rt; check_parts(44100, &FILE, &at_five(huge)), outside);
}

#[test]
fn a_part_is_as_long_as_a_file(rt: HostRuntime) {
    let odd = TrackPart {
        start: 1,
        length: 55,
    };
    let short = TrackPart {
        start: 0,
        length: 40,
    };
    let wrong = Err(WaveFault::Length(5));
    assert_eq!(rt; check_parts(44100, &FILE, &at_five(odd)), wrong);
    assert_eq!(rt; check_parts(44100, &FILE, &at_five(short)), wrong);
}

#[test]
fn a_part_begins_with_its_head(rt: HostRuntime) {
    let fewer = TrackPart {
        start: 0,
        length: 52,
    };
    let later = TrackPart {
        start: 8,
        length: 48,
    };
    assert_eq!(rt;
        check_parts(44100, &FILE, &at_five(fewer)),
        Err(WaveFault::Head(5, 4))
    );
    assert_eq!(rt;
        check_parts(44100, &FILE, &at_five(later)),
        Err(WaveFault::Head(5, 0))
    );
    assert_eq!(rt;
        check_parts(48000, &FILE, &at_five(WHOLE)),
        Err(WaveFault::Head(5, 24))
    );
}
