// Tests of the reader of session texts.
#![tactic(auto)]

#[cfg(test)]
mod tests {
    use frames::refusals::{Fault, Layer, Refusal};
    use session::sessions::Session;
    use std::alloc::{AllocError, Global};
    use std::process::Abort;
    use std::test::Fail;
    use text::reader::read;

    // A text with its refusal, or none where it is accepted.
    #[derive(Drop)]
    struct Case {
        text: &'static str,
        refusal: Option<Refusal>,
    }

    fn refused(text: &'static str, number: u8, line: usize, column: usize) -> Case {
        Case {
            text,
            refusal: Some(Refusal::new(number, Layer::Text, line, column)),
        }
    }

    fn accepted(text: &'static str) -> Case {
        Case {
            text,
            refusal: None,
        }
    }

    fn judge(text: &[u8], heap: Global) -> Option<Refusal> {
        let mut session = Session::empty(heap);
        read(text, &mut session, heap)
            .err()
            .map(|fault| fault.refusal())
    }

    fn check_all(rt: &impl Abort, cases: &[Case], heap: Global) {
        for case in cases {
            let found = judge(case.text.as_bytes(), heap);
            assert_eq!(rt; found, case.refusal, "{}", case.text);
        }
    }

    #[test]
    fn bytes_and_spaces(rt: HostRuntime) {
        let cases = [
            refused("", 2, 1, 1),
            refused("session 1 48000", 2, 1, 16),
            refused("session 1 48000\n", 2, 2, 1),
            refused("session 1 48000\r\n", 2, 1, 16),
            refused("session 1 48000\nnode 0 bus\nend", 2, 3, 4),
            refused("Session", 2, 1, 1),
            refused("\n", 3, 1, 1),
            refused(" session 1 48000\n", 3, 1, 1),
            refused("session  1 48000\n", 3, 1, 9),
            refused("session 1 48000 \n", 3, 1, 17),
        ];
        check_all(&rt, &cases, rt.alloc());
    }

    #[test]
    fn first_words_and_forms(rt: HostRuntime) {
        let cases = [
            refused("unit 0 pan 1\n", 4, 1, 1),
            refused("session 1 48000\nend\n", 4, 2, 1),
            refused(
                "session 1 48000\nunit 0 fir 1 0\nnode 0 bus\nunit 1 fir 1 0\n",
                4,
                4,
                1,
            ),
            refused("session 1 48000\nnodes\n", 4, 2, 1),
            refused("session 2 48000\n", 5, 1, 9),
            refused("session 1\n", 5, 1, 10),
            refused("session 1 48000\nunit 0 pan 5\n", 5, 2, 8),
            refused("session 1 48000\nnode 0\n", 5, 2, 7),
            refused(
                "session 1 48000\nunit 0 fir 1 0\nnode 0 bus\nend x\n",
                5,
                4,
                5,
            ),
            refused("session 1 48000\nunit 0 fir 1 0\nlayer 0 gate\n", 5, 3, 9),
        ];
        check_all(&rt, &cases, rt.alloc());
    }

    #[test]
    fn numbers_and_fits(rt: HostRuntime) {
        let cases = [
            refused("session 1 7999\n", 6, 1, 11),
            refused("session 1 192001\n", 6, 1, 11),
            refused(
                "session 1 48000\nunit 0 fir 1 0\nnode 0 bus\nline 0 0 -0\n",
                6,
                4,
                10,
            ),
            refused("session 1 48000\nunit 0 fir 30 1\n", 6, 2, 12),
            refused("session 1 48000\nunit 0 fir 03 1\n", 6, 2, 12),
            refused("session 1 48000\nnode 16 bus\n", 6, 2, 6),
            refused("session 1 48000\nnode 1 bus\n", 7, 2, 6),
            refused("session 1 48000\nunit 0 fir 1 0\nunit 0 fir 1 0\n", 7, 3, 6),
            refused("session 1 48000\nlayer 2 bypass\n", 7, 2, 7),
            refused(
                "session 1 48000\nunit 0 fir 1 0\nlayer 0 trim 16384\nlayer 0 trim x\n",
                7,
                4,
                9,
            ),
            refused(
                "session 1 48000\nunit 0 fir 1 0\nnode 0 bus unit 1\n",
                7,
                3,
                17,
            ),
            refused("session 1 48000\nnode 0 track 0\nline 0 0 1\n", 7, 3, 8),
        ];
        check_all(&rt, &cases, rt.alloc());
    }

    #[test]
    fn the_rest(rt: HostRuntime) {
        let cases = [
            refused(
                "session 1 48000\nunit 0 fir 1 0\nnode 0 bus\nend\n\n",
                9,
                5,
                1,
            ),
            refused(
                "session 1 48000\nunit 0 fir 1 0\nnode 0 bus\nend\nend\n",
                9,
                5,
                1,
            ),
            accepted("session 1 48000\nunit 0 fir 1 0\nnode 0 bus\nend\n"),
            refused(
                "session 1 48000\nunit 0 fir 1 0\nnode 0 bus\nlayer 0 bypass\n",
                4,
                4,
                1,
            ),
        ];
        check_all(&rt, &cases, rt.alloc());
    }

    // One line, `session 1 48000 aaa..`, of this many bytes.
    fn long_line(heap: Global, bytes: usize) -> Result<String, AllocError> {
        let mut text = String::from_str(heap, "session 1 48000 ")?;
        for _ in 17..bytes {
            text.push('a')?;
        }
        text.push('\n')?;
        Ok(text)
    }

    #[test]
    fn lengths(rt: HostRuntime) -> Result<(), Fail> {
        let most = long_line(rt.alloc(), 16384)?;
        assert_eq!(rt; most.len(), 16384);
        assert_eq!(rt;
            judge(most.as_bytes(), rt.alloc()),
            Some(Refusal::new(5, Layer::Text, 1, 17))
        );
        let more = long_line(rt.alloc(), 16385)?;
        assert_eq!(rt; more.len(), 16385);
        assert_eq!(rt;
            judge(more.as_bytes(), rt.alloc()),
            Some(Refusal::new(1, Layer::Text, 0, 0))
        );
        let twice = long_line(rt.alloc(), 32768)?;
        assert_eq!(rt;
            judge(twice.as_bytes(), rt.alloc()),
            Some(Refusal::new(1, Layer::Text, 0, 0))
        );
        Ok(())
    }

    fn push_units(text: &mut String) -> Result<(), AllocError> {
        for s in ['0', '1'] {
            text.push_str("unit ")?;
            text.push(s)?;
            text.push_str(" fir 31")?;
            for _ in 0..31 {
                text.push_str(" -32768")?;
            }
            text.push('\n')?;
        }
        text.push_str(
            "unit 2 limit 63 32767\nunit 3 limit 63 32767\nunit 4 pan 256\nunit 5 pan 256\n",
        )?;
        text.push_str("unit 6 delay 63\nunit 7 delay 63\n")
    }

    fn push_layers(text: &mut String) -> Result<(), AllocError> {
        for s in ['0', '1', '2', '3', '4', '5', '6', '7'] {
            text.push_str("layer ")?;
            text.push(s)?;
            text.push_str(" trim -32768\nlayer ")?;
            text.push(s)?;
            text.push_str(" bypass\n")?;
        }
        Ok(())
    }

    // Units, layers and nodes, all at their greatest number.
    fn great_head(heap: Global) -> Result<String, AllocError> {
        let mut text = String::from_str(heap, "session 1 192000\n")?;
        push_units(&mut text)?;
        push_layers(&mut text)?;
        text.push_str("node 0 bus unit 0\n")?;
        for v in ["1", "2", "3", "4", "5", "6", "7"] {
            text.push_str("node ")?;
            text.push_str(v)?;
            text.push_str(" bus unit ")?;
            text.push_str(v)?;
            text.push('\n')?;
        }
        for v in ["8", "9", "10", "11", "12", "13", "14", "15"] {
            text.push_str("node ")?;
            text.push_str(v)?;
            text.push_str(" track 7\n")?;
        }
        Ok(text)
    }

    #[test]
    fn everything_at_its_greatest(rt: HostRuntime) -> Result<(), Fail> {
        let mut text = great_head(rt.alloc())?;
        for _ in 0..48 {
            text.push_str("line 15 0 -32768\n")?;
        }
        let mut whole = text.clone()?;
        whole.push_str("end\n")?;
        assert_eq!(rt; judge(whole.as_bytes(), rt.alloc()), None);
        let mut session = Session::empty(rt.alloc());
        let _ = read(whole.as_bytes(), &mut session, rt.alloc());
        assert_eq!(rt; session.nodes().len(), 16);
        assert_eq!(rt; session.lines().len(), 48);
        text.push_str("line 0 0 x\n")?;
        assert_eq!(rt;
            judge(text.as_bytes(), rt.alloc()),
            Some(Refusal::new(8, Layer::Text, 90, 1))
        );
        text.push_str("line 0 0 1\n")?;
        assert_eq!(rt;
            judge(text.as_bytes(), rt.alloc()),
            Some(Refusal::new(8, Layer::Text, 90, 1))
        );
        Ok(())
    }

    // A refused text leaves nothing of its beginnings.
    #[test]
    fn refused_is_empty(rt: HostRuntime) {
        let mut session = Session::empty(rt.alloc());
        let good = b"session 1 48000\nunit 6 delay 9\nnode 0 bus unit 6\nend\n";
        assert!(rt; read(good, &mut session, rt.alloc()).is_ok());
        assert_eq!(rt; session.rate(), 48000);
        assert!(rt; read(b"session 1 44100\nnode 0 bus\n", &mut session, rt.alloc()).is_err());
        assert_eq!(rt; session.rate(), 0);
        assert_eq!(rt; session.nodes().len(), 0);
    }
}
