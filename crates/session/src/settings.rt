use units::settings::{DelaySettings, FirSettings, LimitSettings, PanSettings};

// What a unit is set to: its kind, with that kind's settings.
#[derive(Clone, Copy)]
pub enum Kind {
    Fir(FirSettings),
    Limit(LimitSettings),
    Pan(PanSettings),
    Delay(DelaySettings),
}

// One entry of the settings table: what the unit is set to, if it is set, and the layers that are given for it.
#[derive(Clone, Copy)]
pub struct Setting {
    pub kind: Option<Kind>,
    pub trim: Option<i16>,
    pub bypass: bool,
}

impl Setting {
    // A unit that is not set, without layers.
    pub const UNSET: Setting = Setting {
        kind: None,
        trim: None,
        bypass: false,
    };
}
