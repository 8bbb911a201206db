// The console's calls, made from outside.
#![tactic(auto)]

#[cfg(test)]
mod tests {
    use console::consoles::Console;
    use console::faults::ConsoleFault;
    use frames::refusals::Fault;
    use frames::samples::Frame;
    use racks::interface::Rack;
    use racks::session_rack::session_rack;
    use racks::single::Single;
    use reels::clicks::Clicks;
    use session::sessions::Session;
    use std::alloc::{AllocError, Global};
    use std::process::Abort;
    use std::test::*;
    use text::reader::read;
    use units::delay::Delay;
    use units::interface::Unit;
    use units::settings::DelaySettings;

    const TAPE: usize = 16384;

    // What buffers hold before a call: no frame of these sessions.
    const MARK: Frame = Frame {
        left: 1234,
        right: 1234,
    };

    // One click on two tracks, one of them 40 frames late.
    const TWICE: &[u8] =
        b"session 1 48000\nunit 2 limit 40 32767\nnode 0 bus\nnode 1 track 1 unit 2\nnode 2 track 1\nline 1 0 16384\nline 2 0 16384\nend\n";

    // Six clicks, the first through a limit of 40 frames, the last two through a fir that is 10 late.
    const KIT: &[u8] =
        b"session 1 48000\nunit 0 fir 21 0 0 0 0 0 0 0 0 0 0 16384 0 0 0 0 0 0 0 0 0 0\nunit 2 limit 40 32767\nnode 0 bus\nnode 1 track 0 unit 2\nnode 2 track 1\nnode 3 track 2\nnode 4 track 3\nnode 5 track 4\nnode 6 track 5\nnode 7 bus unit 0\nline 1 0 16384\nline 2 0 16384\nline 3 0 16384\nline 4 0 16384\nline 5 7 16384\nline 6 7 16384\nline 7 0 16384\nend\n";

    // A click beside its fir, which is 1 late, and beside its echo, which counts as not late.
    const SPREAD: &[u8] =
        b"session 1 48000\nunit 0 fir 3 4096 8192 4096\nunit 6 delay 20\nnode 0 bus\nnode 1 track 2 unit 0\nnode 2 track 2\nnode 3 track 2 unit 6\nline 1 0 16384\nline 2 0 16384\nline 3 0 -8192\nend\n";

    // Three buses, two of them in a ring.
    const RING: &[u8] =
        b"session 1 48000\nnode 0 bus\nnode 1 bus\nnode 2 bus\nline 1 2 1\nline 2 1 1\nline 2 0 1\nend\n";

    // No session: what is then held is the empty one.
    const NOTHING: &[u8] = b"";

    const BUS: &[u8] = b"session 1 48000\nnode 0 bus\nend\n";

    // The output is a track, through unit 0.
    const ALONE: &[u8] = b"session 1 48000\nunit 0 fir 1 16384\nnode 0 track 1 unit 0\nend\n";

    // A call, or a question about a node or a line.
    #[derive(Clone, Copy)]
    enum Ask {
        Start(&'static [u8]),
        Play(usize),
        // So many plays of 4,096 frames, until one is refused; only the last one's frames are heard.
        Plays(u32),
        Rewind,
        Lateness(usize),
        Feeders(usize),
        Delay(usize),
    }

    // What comes of it: a call is accepted, over the tape; a question is answered with a number; either is refused with a
    // number and a place, a call over a tape of some length.
    #[derive(Clone, Copy)]
    enum Call {
        Done(Ask),
        Answered(Ask, usize),
        Refused(Ask, usize, u8, usize),
    }

    // Calls with a rack, and the frames that were played since the console last began: so many, silent but for the clicks
    // of these sizes at these places.
    #[derive(Clone, Copy)]
    struct Story {
        // The session that has the rack.
        rack: &'static [u8],
        calls: &'static [Call],
        frames: usize,
        clicks: &'static [(usize, i16)],
    }

    const TWO_PATHS: Story = Story {
        rack: TWICE,
        calls: &[Call::Done(Ask::Start(TWICE)), Call::Done(Ask::Play(100))],
        frames: 100,
        clicks: &[(48, 32000)],
    };

    const DRUMS: Story = Story {
        rack: KIT,
        calls: &[
            Call::Done(Ask::Start(KIT)),
            Call::Done(Ask::Play(60)),
            Call::Answered(Ask::Lateness(0), 40),
            Call::Answered(Ask::Lateness(1), 40),
            Call::Answered(Ask::Lateness(6), 0),
            Call::Answered(Ask::Lateness(7), 10),
            Call::Answered(Ask::Feeders(0), 255),
            Call::Answered(Ask::Feeders(1), 2),
            Call::Answered(Ask::Feeders(7), 224),
            Call::Answered(Ask::Delay(0), 0),
            Call::Answered(Ask::Delay(3), 40),
            Call::Answered(Ask::Delay(4), 0),
            Call::Answered(Ask::Delay(6), 30),
            Call::Refused(Ask::Lateness(8), TAPE, 25, 8),
            Call::Refused(Ask::Feeders(65536), TAPE, 25, 65536),
            Call::Done(Ask::Play(140)),
        ],
        frames: 200,
        clicks: &[
            (40, 16000),
            (48, 16000),
            (56, 16000),
            (64, 16000),
            (72, 16000),
            (80, 16000),
        ],
    };

    const WHOLE: Story = Story {
        rack: SPREAD,
        calls: &[Call::Done(Ask::Start(SPREAD)), Call::Done(Ask::Play(1058))],
        frames: 1058,
        clicks: &[(16, 4000), (17, 24000), (18, 4000), (37, -8000)],
    };

    const IN_PIECES: Story = Story {
        rack: SPREAD,
        calls: &[
            Call::Done(Ask::Start(SPREAD)),
            Call::Done(Ask::Play(1)),
            Call::Done(Ask::Play(2)),
            Call::Done(Ask::Play(3)),
            Call::Done(Ask::Play(5)),
            Call::Done(Ask::Play(0)),
            Call::Done(Ask::Play(7)),
            Call::Done(Ask::Play(40)),
            Call::Done(Ask::Play(1000)),
        ],
        frames: 1058,
        clicks: &[(16, 4000), (17, 24000), (18, 4000), (37, -8000)],
    };

    const EACH_SIZE: Story = Story {
        rack: SPREAD,
        calls: &[
            Call::Done(Ask::Start(SPREAD)),
            Call::Done(Ask::Play(0)),
            Call::Done(Ask::Play(1)),
            Call::Done(Ask::Play(4096)),
            Call::Refused(Ask::Play(4097), TAPE, 23, 0),
            Call::Done(Ask::Play(0)),
        ],
        frames: 4097,
        clicks: &[(16, 4000), (17, 24000), (18, 4000), (37, -8000)],
    };

    const REFUSED_PLAYS: Story = Story {
        rack: TWICE,
        calls: &[
            Call::Done(Ask::Start(TWICE)),
            Call::Done(Ask::Play(9)),
            Call::Refused(Ask::Play(10), 16383, 22, 0),
            Call::Done(Ask::Play(30)),
            Call::Refused(Ask::Play(4097), 16385, 22, 0),
            Call::Refused(Ask::Play(4097), TAPE, 23, 0),
            Call::Done(Ask::Play(61)),
        ],
        frames: 100,
        clicks: &[(48, 32000)],
    };

    const REFUSED_STARTS: Story = Story {
        rack: TWICE,
        calls: &[
            Call::Done(Ask::Start(TWICE)),
            Call::Done(Ask::Play(20)),
            Call::Refused(Ask::Start(NOTHING), 16, 19, 0),
            Call::Done(Ask::Play(20)),
            Call::Refused(Ask::Start(RING), TAPE, 21, 0),
            Call::Refused(Ask::Start(SPREAD), 16, 22, 0),
            Call::Answered(Ask::Lateness(0), 40),
            Call::Done(Ask::Play(60)),
        ],
        frames: 100,
        clicks: &[(48, 32000)],
    };

    const REWOUND: Story = Story {
        rack: TWICE,
        calls: &[
            Call::Done(Ask::Start(TWICE)),
            Call::Done(Ask::Play(45)),
            Call::Done(Ask::Rewind),
            Call::Done(Ask::Play(20)),
            Call::Refused(Ask::Rewind, 0, 22, 0),
            Call::Done(Ask::Play(80)),
        ],
        frames: 100,
        clicks: &[(48, 32000)],
    };

    const NOT_STARTED: Story = Story {
        rack: TWICE,
        calls: &[
            Call::Refused(Ask::Play(5), TAPE, 19, 0),
            Call::Refused(Ask::Play(4097), 0, 19, 0),
            Call::Refused(Ask::Rewind, TAPE, 19, 0),
            Call::Refused(Ask::Rewind, 0, 19, 0),
            Call::Refused(Ask::Lateness(0), TAPE, 25, 0),
            Call::Refused(Ask::Feeders(9), TAPE, 25, 9),
        ],
        frames: 0,
        clicks: &[],
    };

    // 262,143 times 4,096 frames are 4,096 short of the end.
    const TO_THE_END: Story = Story {
        rack: BUS,
        calls: &[
            Call::Done(Ask::Start(BUS)),
            Call::Done(Ask::Plays(262143)),
            Call::Done(Ask::Play(4095)),
            Call::Refused(Ask::Play(2), TAPE, 24, 0),
            Call::Refused(Ask::Play(4097), TAPE, 23, 0),
            Call::Done(Ask::Play(1)),
            Call::Refused(Ask::Play(1), TAPE, 24, 0),
            Call::Done(Ask::Play(0)),
            Call::Done(Ask::Rewind),
            Call::Done(Ask::Play(4096)),
        ],
        frames: 4096,
        clicks: &[],
    };

    // With a rack that has no unit but 0, a delay of 3 frames.
    const LACKING: Story = Story {
        rack: NOTHING,
        calls: &[
            Call::Done(Ask::Start(ALONE)),
            Call::Done(Ask::Play(5)),
            Call::Refused(Ask::Start(KIT), TAPE, 20, 1),
            Call::Done(Ask::Play(10)),
        ],
        frames: 15,
        clicks: &[(11, 16000)],
    };

    // The number and the place of a refusal, or 0 and the answer.
    fn answered<F: Fault + Drop>(answer: Result<u16, F>) -> (u8, usize) {
        match answer {
            Ok(found) => (0, usize::from(found)),
            Err(fault) => {
                let refusal = fault.refusal();
                (refusal.number, refusal.first)
            }
        }
    }

    // The number and the place of a refusal, or 0 and 0.
    fn told(answer: Result<(), ConsoleFault>) -> (u8, usize) {
        answered(answer.map(|()| 0))
    }

    fn marked(frames: &[Frame]) -> bool {
        frames.iter().all(|frame| *frame == MARK)
    }

    // Frames cut or lengthened.
    fn resized(frames: &Vec<Frame>, count: usize) -> Result<Vec<Frame>, AllocError> {
        let mut copy = frames.clone()?;
        copy.resize(count, MARK)?;
        Ok(copy)
    }

    fn clicks(heap: Global, count: usize, at: &[(usize, i16)]) -> Result<Vec<Frame>, AllocError> {
        let mut frames = vec![in heap; Frame::SILENCE; count]?;
        for (place, size) in at {
            if let Some(frame) = frames.get_mut(*place) {
                *frame = Frame {
                    left: *size,
                    right: size.wrapping_neg(),
                };
            }
        }
        Ok(frames)
    }

    // A console with a session and its tape; the tape and the buffer that a call is made with; and the frames of its plays
    // since it last began.
    #[derive(Drop)]
    struct Trial {
        console: Console,
        session: Session,
        tape: Vec<Frame>,
        copy: Vec<Frame>,
        out: Vec<Frame>,
        heard: Vec<Frame>,
        heap: Global,
    }

    impl Trial {
        fn new(heap: Global) -> Result<Trial, AllocError> {
            let tape = vec![in heap; MARK; TAPE]?;
            Ok(Trial {
                console: Console::new(),
                session: Session::empty(heap),
                tape,
                copy: Vec::new(heap),
                out: Vec::new(heap),
                heard: Vec::new(heap),
                heap,
            })
        }

        // The session of a text; of one that is refused it is the empty session.
        fn read(&mut self, text: &[u8]) {
            let _ = read(text, &mut self.session, self.heap);
        }

        // What a call needs: a tape, cut or lengthened; for a start the session, for a play the buffer.
        fn prepare(&mut self, ask: Ask, tape: usize) -> Result<(), AllocError> {
            self.copy = resized(&self.tape, tape)?;
            self.out.clear();
            match ask {
                Ask::Start(text) => Ok(self.read(text)),
                Ask::Play(frames) => self.out.resize(frames, MARK),
                Ask::Plays(_) => self.out.resize(4096, MARK),
                _ => Ok(()),
            }
        }

        fn play<R: Rack>(&mut self, rack: &mut R) -> (u8, usize) {
            told(
                self.console
                    .play(rack, &Clicks, &mut self.copy, &mut self.out),
            )
        }

        fn plays<R: Rack>(&mut self, rack: &mut R, count: u32) -> (u8, usize) {
            for _ in 0..count {
                let found = self.play(rack);
                if found != (0, 0) {
                    return found;
                }
            }
            (0, 0)
        }

        fn ask<R: Rack>(&mut self, rack: &mut R, ask: Ask) -> (u8, usize) {
            match ask {
                Ask::Start(_) => told(self.console.start(&self.session, rack, &mut self.copy)),
                Ask::Play(_) => self.play(rack),
                Ask::Plays(count) => self.plays(rack, count),
                Ask::Rewind => told(self.console.rewind(rack, &mut self.copy)),
                Ask::Lateness(v) => answered(self.console.lateness(v)),
                Ask::Feeders(v) => answered(self.console.feeders(v)),
                Ask::Delay(i) => (
                    0,
                    usize::from(self.console.delays().get(i).copied().unwrap_or(0)),
                ),
            }
        }

        // It was not refused: its tape is now the tape.
        fn keep(&mut self, ask: Ask) -> Result<(), AllocError> {
            std::mem::swap(&mut self.tape, &mut self.copy);
            match ask {
                Ask::Start(_) | Ask::Rewind => Ok(self.heard.clear()),
                _ => self.heard.extend_from_slice(&self.out),
            }
        }

        // It was refused: it has left its tape and its buffer as they were.
        fn compare(&self, rt: &impl Abort) -> Result<(), Fail> {
            let tape = resized(&self.tape, self.copy.len())?;
            assert!(rt; marked(&self.out) && self.copy == tape);
            Ok(())
        }

        fn make<R: Rack>(&mut self, rt: &impl Abort, rack: &mut R, call: Call) -> Result<(), Fail> {
            let (ask, tape, number, place) = match call {
                Call::Done(ask) => (ask, TAPE, 0, 0),
                Call::Answered(ask, answer) => (ask, TAPE, 0, answer),
                Call::Refused(ask, tape, number, place) => (ask, tape, number, place),
            };
            self.prepare(ask, tape)?;
            assert_eq!(rt; self.ask(rack, ask), (number, place));
            if number != 0 {
                return self.compare(rt);
            }
            Ok(self.keep(ask)?)
        }

        fn tell<R: Rack + Drop>(
            &mut self,
            rt: &impl Abort,
            mut rack: R,
            story: Story,
        ) -> Result<(), Fail> {
            for call in story.calls {
                self.make(rt, &mut rack, *call)?;
            }
            let wanted = clicks(self.heap, story.frames, story.clicks)?;
            assert!(rt; self.heard == wanted);
            Ok(())
        }

        // The same with the rack of the story's session.
        fn tell_of_session(&mut self, rt: &impl Abort, story: Story) -> Result<(), Fail> {
            self.read(story.rack);
            let rack = session_rack(&self.session);
            self.tell(rt, rack, story)
        }
    }

    // Stories one after the other, with one console.
    fn tell(rt: &impl Abort, heap: Global, stories: &[Story]) -> Result<(), Fail> {
        let mut trial = Trial::new(heap)?;
        for story in stories {
            trial.tell_of_session(rt, *story)?;
        }
        Ok(())
    }

    #[test]
    fn late_and_early_paths_meet(rt: HostRuntime) -> Result<(), Fail> {
        tell(&rt, rt.alloc(), &[TWO_PATHS, DRUMS])
    }

    #[test]
    fn a_mix_in_pieces(rt: HostRuntime) -> Result<(), Fail> {
        tell(&rt, rt.alloc(), &[WHOLE, IN_PIECES, EACH_SIZE])
    }

    #[test]
    fn refused_calls_change_nothing(rt: HostRuntime) -> Result<(), Fail> {
        tell(
            &rt,
            rt.alloc(),
            &[NOT_STARTED, REFUSED_PLAYS, REFUSED_STARTS],
        )
    }

    #[test]
    fn from_the_beginning_again(rt: HostRuntime) -> Result<(), Fail> {
        tell(&rt, rt.alloc(), &[REWOUND, WHOLE, TWO_PATHS])
    }

    #[test]
    fn the_end_of_the_position(rt: HostRuntime) -> Result<(), Fail> {
        tell(&rt, rt.alloc(), &[TO_THE_END])
    }

    #[test]
    fn a_rack_that_lacks_units(rt: HostRuntime) -> Result<(), Fail> {
        let unit = Delay::new(DelaySettings { frames: 3 });
        let mut trial = Trial::new(rt.alloc())?;
        trial.tell(&rt, Single { unit }, LACKING)
    }
}
