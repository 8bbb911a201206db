use frames::refusals::{Fault, Layer, Refusal};
use frames::samples::Frame;
use listing::hex::{push_frames, push_number};
use std::test::Fail;
use wave::writer::{WriteFault, head, write_frames};

#[test]
fn a_head_of_one_frame(rt: HostRuntime) {
    let bytes = head(1, 44100);
    assert!(rt; &bytes[0..8] == b"RIFF(\0\0\0".as_slice());
    assert!(rt; &bytes[24..32] == b"D\xac\0\0\x10\xb1\x02\0".as_slice());
    assert!(rt; &bytes[36..44] == b"data\x04\0\0\0".as_slice());
}

#[test]
fn frames_are_written_left_then_right(rt: HostRuntime) {
    let frames = [Frame {
        left: 258,
        right: -2,
    }];
    let mut out = [7u8; 4];
    assert_eq!(rt; write_frames(&frames, &mut out), Ok(()));
    assert!(rt; out == [2, 1, 254, 255]);
}

#[test]
fn a_buffer_of_another_length_stays(rt: HostRuntime) {
    let frames = [Frame::SILENCE];
    let mut out = [7u8; 5];
    assert_eq!(rt;
        write_frames(&frames, &mut out),
        Err(WriteFault::BufferLength)
    );
    assert!(rt; out == [7, 7, 7, 7, 7]);
    let told = Refusal {
        number: 26,
        layer: Layer::Play,
        first: 0,
        second: 0,
    };
    assert_eq!(rt; WriteFault::BufferLength.refusal(), told);
}

#[test]
fn a_refusal_is_printed_in_decimal(rt: HostRuntime) -> Result<(), Fail> {
    let told = Refusal {
        number: 20,
        layer: Layer::Patch,
        first: 13,
        second: 0,
    };
    let text = format!(in rt.alloc(); "{told}")?;
    assert!(rt; text.as_str() == "refused 20 patch 13 0");
    Ok(())
}

#[test]
fn numbers_take_the_digits_they_need(rt: HostRuntime) -> Result<(), Fail> {
    let mut text = Vec::new(rt.alloc());
    push_number(&mut text, 57)?;
    push_number(&mut text, 1048576)?;
    push_frames(
        &mut text,
        &[Frame {
            left: 2000,
            right: -2000,
        }],
    )?;
    assert!(rt; text.as_slice() == b"003910000007D0F830\n".as_slice());
    Ok(())
}
