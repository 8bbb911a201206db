use frames::refusals::{Fault, Layer, Refusal};
use frames::samples::Frame;
use session::sessions::Session;
use wave::parts::TrackPart;
use wave::reader::WaveFault;
use wave::reel::WaveReel;
use wave::writer::{WriteFault, write_file, write_head};

#[test]
fn the_empty_session_has_no_reel(rt: HostRuntime) {
    let session = Session::empty(rt.alloc());
    let parts = [TrackPart {
        start: 9,
        length: 9,
    }; 8];
    assert_eq!(rt;
        WaveReel::open(&session, b"RIFF", parts).err(),
        Some(WaveFault::NoNode)
    );
}

#[test]
fn the_empty_session_writes_nothing(rt: HostRuntime) {
    let session = Session::empty(rt.alloc());
    let mut out = [7u8; 3];
    assert_eq!(rt;
        write_head(&session, 1048577, &mut out),
        Err(WriteFault::NoNode)
    );
    assert_eq!(rt;
        write_file(&session, &[Frame::SILENCE], &mut out),
        Err(WriteFault::NoNode)
    );
    assert!(rt; out == [7, 7, 7]);
}

#[test]
fn each_writers_fault_has_its_record(rt: HostRuntime) {
    assert_eq!(rt;
        WriteFault::NoNode.refusal(),
        Refusal::new(19, Layer::Patch, 0, 0)
    );
    assert_eq!(rt;
        WriteFault::TooLong.refusal(),
        Refusal::new(27, Layer::Play, 0, 0)
    );
    assert_eq!(rt;
        WriteFault::BufferLength.refusal(),
        Refusal::new(26, Layer::Play, 0, 0)
    );
}

#[test]
fn each_readers_fault_has_its_record(rt: HostRuntime) {
    assert_eq!(rt;
        WaveFault::NoNode.refusal(),
        Refusal::new(19, Layer::Patch, 0, 0)
    );
    assert_eq!(rt;
        WaveFault::Outside(3).refusal(),
        Refusal::new(18, Layer::Wave, 3, 0)
    );
    assert_eq!(rt;
        WaveFault::Length(4).refusal(),
        Refusal::new(10, Layer::Wave, 4, 0)
    );
    assert_eq!(rt;
        WaveFault::Head(7, 43).refusal(),
        Refusal::new(11, Layer::Wave, 7, 43)
    );
}
