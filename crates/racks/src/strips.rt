ghost use Rattle.std.specs.Prelude.{◌≡◌, Option};
ghost use Rattle.frames.specs.declared.samples.Frame.{Frame};
ghost use Rattle.racks.specs.SessionRack.{ceiling_by, frames_by, layered, lookahead_by, position_by, taps_by};
ghost use Rattle.session.specs.declared.settings.Kind.{Kind};
ghost use Rattle.units.specs.Meanings.{bypass_meaning, trim_meaning};
ghost use Rattle.units.specs.Taps.{taps_of};
ghost use Rattle.voices.specs.Kinds.{delay_unit, fir_unit, limit_unit, pan_unit};
ghost use Rattle.voices.specs.Meaning.{Meaning};

use crate::single::Single;
use frames::samples::UNITY;
use session::settings::{Kind, Setting};
use units::bypass::Bypass;
use units::delay::Delay;
use units::fir::Fir;
use units::interface::Unit;
use units::limit::Limit;
use units::pan::Pan;
use units::settings::{
    BypassSettings, DelaySettings, FirSettings, LimitSettings, PanSettings, TrimSettings,
};
use units::trim::Trim;

// A unit under its layers, as a rack of one.
pub type Strip<U> = Single<Trim<Bypass<U>>>;

// Four matches: each takes another variant and default; put into `by`, the search lost the settings' range where arms meet.

// A fir's settings, or those of one that is not set.
fn fir_settings(kind: Option<Kind>) -> FirSettings
    ensures { taps_of result ≡ taps_by kind }
{
    match kind {
        Some(Kind::Fir(settings)) => settings,
        _ => FirSettings {
            taps: [0; 31],
            count: 1,
        },
    }
}

// A limit's settings, or those of one that is not set.
fn limit_settings(kind: Option<Kind>) -> LimitSettings
    ensures lookahead { result.lookahead ≡ lookahead_by kind }
    ensures ceiling { result.ceiling ≡ ceiling_by kind }
{
    match kind {
        Some(Kind::Limit(settings)) => settings,
        _ => LimitSettings {
            lookahead: 0,
            ceiling: 1,
        },
    }
}

// A pan's settings, or those of one that is not set.
fn pan_settings(kind: Option<Kind>) -> PanSettings
    ensures { result.position ≡ position_by kind }
{
    match kind {
        Some(Kind::Pan(settings)) => settings,
        _ => PanSettings { position: 0 },
    }
}

// A delay's settings, or those of one that is not set.
fn delay_settings(kind: Option<Kind>) -> DelaySettings
    ensures { result.frames ≡ frames_by kind }
{
    match kind {
        Some(Kind::Delay(settings)) => settings,
        _ => DelaySettings { frames: 0 },
    }
}

// A unit that a session sets.
pub(crate) trait Kinded: Unit {
    ghost unit_by: { Option Kind → Meaning Frame };

    // A unit as it is set, or one that is not set where the kind is another.
    fn by(kind: Option<Kind>) -> Self
        ensures { Self.meaning result ≡ unit_by kind };
}

impl Kinded for Fir {
    ghost unit_by = { λ kind. fir_unit (taps_by kind) };

    fn by(kind: Option<Kind>) -> Fir {
        Fir::new(fir_settings(kind))
    }
}

impl Kinded for Limit {
    ghost unit_by = { λ kind. limit_unit (lookahead_by kind) (ceiling_by kind) };

    fn by(kind: Option<Kind>) -> Limit {
        Limit::new(limit_settings(kind))
    }
}

impl Kinded for Pan {
    ghost unit_by = { λ kind. pan_unit (position_by kind) };

    fn by(kind: Option<Kind>) -> Pan {
        Pan::new(pan_settings(kind))
    }
}

impl Kinded for Delay {
    ghost unit_by = { λ kind. delay_unit (frames_by kind) };

    fn by(kind: Option<Kind>) -> Delay {
        Delay::new(delay_settings(kind))
    }
}

// Trim over bypass over a unit, as its entry gives them.
pub(crate) fn strip<U: Kinded>(entry: Setting) -> Strip<U>
    ensures { trim_meaning (bypass_meaning U.meaning) result.unit ≡ layered entry (U.unit_by entry.kind) }
{
    let on = BypassSettings { on: entry.bypass };
    let trim = TrimSettings {
        gain: entry.trim.unwrap_or(UNITY),
    };
    Single {
        unit: Trim::new(Bypass::new(U::by(entry.kind), on), trim),
    }
}
