// Patches, run on worked examples.
#![tactic(auto)]

#[cfg(test)]
mod tests {
    use frames::refusals::Fault;
    use patch::patches::ours::our_patch;
    use racks::interface::Rack;
    use racks::session_rack::session_rack;
    use session::sessions::Session;
    use std::alloc::Global;
    use std::process::Abort;
    use std::test::Fail;
    use text::reader::read;

    fn session(heap: Global, text: &[u8]) -> Result<Session, Fail> {
        let mut session = Session::empty(heap);
        read(text, &mut session, heap).map_err(|_| Fail::new("the text is refused"))?;
        Ok(session)
    }

    // What our patch of a session over a rack comes to: how late each node is, and how long each line is held.
    #[derive(Clone, Copy)]
    struct Made<'a> {
        late: &'a [u16],
        held: &'a [u16],
    }

    // The patch is as wanted, or it is refused by the wanted number.
    fn judged<R: Rack>(rt: &impl Abort, session: &Session, rack: &R, wanted: Result<Made<'_>, u8>) {
        match (our_patch(session, rack), wanted) {
            (Ok(patch), Ok(made)) => {
                assert!(rt; patch.latenesses() == made.late);
                assert!(rt; patch.delays() == made.held);
            }
            (Err(fault), Err(number)) => assert_eq!(rt; fault.refusal().number, number),
            _ => assert!(rt; false, "only one of them is refused"),
        }
    }

    // The same of a text's session over its own rack.
    fn same(
        rt: &impl Abort,
        heap: Global,
        text: &[u8],
        wanted: Result<Made<'_>, u8>,
    ) -> Result<(), Fail> {
        let session = session(heap, text)?;
        let rack = session_rack(&session);
        judged(rt, &session, &rack, wanted);
        Ok(())
    }

    #[test]
    fn a_bus_alone(rt: HostRuntime) -> Result<(), Fail> {
        same(
            &rt,
            rt.alloc(),
            b"session 1 48000\nnode 0 bus\nend\n",
            Ok(Made {
                late: &[0],
                held: &[],
            }),
        )
    }

    #[test]
    fn late_paths_are_waited_for(rt: HostRuntime) -> Result<(), Fail> {
        let text =
            b"session 1 48000\nunit 0 fir 21 1 1 1 1 1 1 1 1 1 1 1 1 1 1 1 1 1 1 1 1 1\nunit 2 limit 40 9\nnode 0 bus\nnode 1 track 0 unit 2\nnode 2 track 1\nnode 3 bus unit 0\nline 1 0 16384\nline 2 3 16384\nline 3 0 16384\nend\n";
        same(
            &rt,
            rt.alloc(),
            text,
            Ok(Made {
                late: &[40, 40, 0, 10],
                held: &[0, 0, 30],
            }),
        )
    }

    #[test]
    fn two_lines_side_by_side(rt: HostRuntime) -> Result<(), Fail> {
        let text =
            b"session 1 48000\nunit 2 limit 7 9\nnode 0 bus\nnode 1 track 0 unit 2\nnode 2 track 0\nline 2 0 1\nline 1 0 1\nline 2 0 2\nend\n";
        same(
            &rt,
            rt.alloc(),
            text,
            Ok(Made {
                late: &[7, 7, 0],
                held: &[7, 0, 7],
            }),
        )
    }

    #[test]
    fn a_loop_cannot_be_placed(rt: HostRuntime) -> Result<(), Fail> {
        let text =
            b"session 1 48000\nnode 0 bus\nnode 1 bus\nnode 2 bus\nline 1 2 1\nline 2 1 1\nline 2 0 1\nend\n";
        same(&rt, rt.alloc(), text, Err(21))
    }

    #[test]
    fn sixteen_nodes_and_forty_eight_lines(rt: HostRuntime) -> Result<(), Fail> {
        let text =
            b"session 1 48000\nunit 0 fir 31 1 1 1 1 1 1 1 1 1 1 1 1 1 1 1 1 1 1 1 1 1 1 1 1 1 1 1 1 1 1 1\nunit 1 fir 31 1 1 1 1 1 1 1 1 1 1 1 1 1 1 1 1 1 1 1 1 1 1 1 1 1 1 1 1 1 1 1\nunit 2 limit 63 9\nunit 3 limit 63 9\nnode 0 bus\nnode 1 bus\nnode 2 bus\nnode 3 bus\nnode 4 bus\nnode 5 bus\nnode 6 bus\nnode 7 bus\nnode 8 bus\nnode 9 bus\nnode 10 bus\nnode 11 bus\nnode 12 bus unit 1\nnode 13 bus unit 0\nnode 14 bus unit 3\nnode 15 track 0 unit 2\nline 1 0 1\nline 2 1 1\nline 3 2 1\nline 4 3 1\nline 5 4 1\nline 6 5 1\nline 7 6 1\nline 8 7 1\nline 9 8 1\nline 10 9 1\nline 11 10 1\nline 12 11 1\nline 13 12 1\nline 14 13 1\nline 15 14 1\nline 2 0 1\nline 3 0 1\nline 4 0 1\nline 5 0 1\nline 6 0 1\nline 7 0 1\nline 8 0 1\nline 9 0 1\nline 10 0 1\nline 11 0 1\nline 12 0 1\nline 13 0 1\nline 14 0 1\nline 15 0 1\nline 3 1 1\nline 4 1 1\nline 5 1 1\nline 6 1 1\nline 7 1 1\nline 8 1 1\nline 9 1 1\nline 10 1 1\nline 11 1 1\nline 12 1 1\nline 13 1 1\nline 14 1 1\nline 15 1 1\nline 4 2 1\nline 5 2 1\nline 6 2 1\nline 7 2 1\nline 8 2 1\nline 9 2 1\nend\n";
        let late = [
            156, 156, 156, 156, 156, 156, 156, 156, 156, 156, 156, 156, 156, 141, 126, 63,
        ];
        let held = [
            0, 0, 0, 0, 0, 0, 0, 0, 0, 0, 0, 0, 0, 0, 0, 0, 0, 0, 0, 0, 0, 0, 0, 0, 0, 0, 15, 30,
            93, 0, 0, 0, 0, 0, 0, 0, 0, 0, 0, 15, 30, 93, 0, 0, 0, 0, 0, 0,
        ];
        same(
            &rt,
            rt.alloc(),
            text,
            Ok(Made {
                late: &late,
                held: &held,
            }),
        )
    }
}
