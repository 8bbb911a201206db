// Units: processors behind one interface, of four kinds, and two layers over any unit.
#![tactic(auto)]

pub mod bypass;
pub mod delay;
pub mod fir;
pub mod interface;
pub mod limit;
pub mod pan;
mod past;
mod ruled;
pub mod settings;
pub mod trim;

#[cfg(test)]
mod tests {
    use crate::bypass::Bypass;
    use crate::delay::Delay;
    use crate::fir::Fir;
    use crate::interface::Unit;
    use crate::limit::Limit;
    use crate::pan::Pan;
    use crate::settings::{
        BypassSettings, DelaySettings, FirSettings, LimitSettings, PanSettings, TrimSettings,
    };
    use crate::trim::Trim;
    use frames::samples::Frame;
    use std::process::Abort;
    use std::test::Fail;

    // The unit hears a sample on both sides, and answers another on both.
    fn hears<U: Unit>(rt: &impl Abort, unit: &mut U, heard: i16, answer: i16) {
        let f = unit.step(Frame {
            left: heard,
            right: heard,
        });
        assert_eq!(rt;
            f,
            Frame {
                left: answer,
                right: answer,
            }
        );
    }

    fn greatest<U: Unit>(_unit: &U) -> u8 {
        U::MAX_LATENESS
    }

    #[test]
    fn delays(rt: HostRuntime) -> Result<(), Fail> {
        let mut unit = Delay::new(DelaySettings::new(3).ok_or(())?);
        hears(&rt, &mut unit, 7, 0);
        hears(&rt, &mut unit, 0, 0);
        hears(&rt, &mut unit, 0, 0);
        hears(&rt, &mut unit, 0, 7);
        Ok(())
    }

    #[test]
    fn filters(rt: HostRuntime) -> Result<(), Fail> {
        let mut taps = [0; 31];
        taps[0] = 4096;
        taps[1] = 8192;
        taps[2] = 4096;
        let mut unit = Fir::new(FirSettings::new(taps, 3).ok_or(())?);
        assert_eq!(rt; unit.lateness(), 1);
        hears(&rt, &mut unit, 16000, 4000);
        hears(&rt, &mut unit, 0, 8000);
        hears(&rt, &mut unit, 0, 4000);
        Ok(())
    }

    #[test]
    fn limits(rt: HostRuntime) -> Result<(), Fail> {
        let mut unit = Limit::new(LimitSettings::new(1, 10000).ok_or(())?);
        hears(&rt, &mut unit, 5000, 0);
        hears(&rt, &mut unit, 20000, 2500);
        hears(&rt, &mut unit, 0, 10000);
        hears(&rt, &mut unit, 0, 0);
        let mut lowest = Limit::new(LimitSettings::new(0, 1).ok_or(())?);
        hears(&rt, &mut lowest, -32768, -1);
        Ok(())
    }

    // What a full sample becomes on each side is the weight of that side, here 16384, 11585 or 0.
    #[test]
    fn pans(rt: HostRuntime) -> Result<(), Fail> {
        let full = Frame {
            left: 16384,
            right: 16384,
        };
        let mut left = Pan::new(PanSettings::new(0).ok_or(())?);
        assert_eq!(rt;
            left.step(full),
            Frame {
                left: 16384,
                right: 0,
            }
        );
        let mut middle = Pan::new(PanSettings::new(128).ok_or(())?);
        assert_eq!(rt;
            middle.step(full),
            Frame {
                left: 11585,
                right: 11585,
            }
        );
        let mut right = Pan::new(PanSettings::new(256).ok_or(())?);
        assert_eq!(rt;
            right.step(full),
            Frame {
                left: 0,
                right: 16384,
            }
        );
        Ok(())
    }

    #[test]
    fn bypass_stays_late(rt: HostRuntime) -> Result<(), Fail> {
        let below = Limit::new(LimitSettings::new(2, 1).ok_or(())?);
        let mut unit = Bypass::new(below, BypassSettings { on: true });
        assert_eq!(rt; unit.lateness(), 2);
        assert_eq!(rt; greatest(&unit), 63);
        hears(&rt, &mut unit, 9, 0);
        hears(&rt, &mut unit, 8, 0);
        hears(&rt, &mut unit, 7, 9);
        let over = Trim::new(unit, TrimSettings { gain: 0 });
        assert_eq!(rt; greatest(&over), 63);
        Ok(())
    }

    #[test]
    fn trim_clamps(rt: HostRuntime) -> Result<(), Fail> {
        let below = Delay::new(DelaySettings::new(0).ok_or(())?);
        let mut unit = Trim::new(below, TrimSettings { gain: 32767 });
        assert_eq!(rt; greatest(&unit), 0);
        hears(&rt, &mut unit, 30000, 32767);
        hears(&rt, &mut unit, -30000, -32768);
        let over = Bypass::new(unit, BypassSettings { on: true });
        assert_eq!(rt; greatest(&over), 0);
        Ok(())
    }
}
