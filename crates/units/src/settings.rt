ghost use Rattle.std.specs.Prelude.{◌≡◌, length, MatchOption};
ghost use Rattle.units.specs.Ranges.{FirRange, LimitRange, PanRange, DelayRange};

// What a fir is set by: the first `count` of the taps, for the newest frame first.
// The count stands beside the taps: settings are copied out of a session's table, and a list with its own length is no plain copy.
#[derive(Clone, Copy)]
pub struct FirSettings {
    pub taps: [i16; 31],
    pub count: u8,
    ghost full: { length taps ≡ 31 },
    ghost range: { FirRange count },
}

impl FirSettings {
    // None where the number of taps is even or above 31.
    // The literals ask for the tested facts, which a closure given to `then` does not know.
    pub fn new(taps: [i16; 31], count: u8) -> Option<FirSettings>
        ensures { MatchOption result (FirRange count → ⊥) (λ s. (s.taps ≡ taps) × (s.count ≡ count)) }
    {
        if count % 2 == 1 && count <= 31 {
            Some(FirSettings { taps, count })
        } else {
            None
        }
    }
}

// What a limit is set by: how many frames it looks ahead, and the greatest sample that it lets out.
#[derive(Clone, Copy)]
pub struct LimitSettings {
    pub lookahead: u8,
    pub ceiling: u16,
    ghost range: { LimitRange lookahead ceiling },
}

impl LimitSettings {
    // None where the lookahead is above 63, or the ceiling is 0 or above 32,767.
    pub fn new(lookahead: u8, ceiling: u16) -> Option<LimitSettings>
        ensures { MatchOption result (LimitRange lookahead ceiling → ⊥) (λ s. (s.lookahead ≡ lookahead) × (s.ceiling ≡ ceiling)) }
    {
        if lookahead <= 63 && ceiling >= 1 && ceiling <= 32767 {
            Some(LimitSettings { lookahead, ceiling })
        } else {
            None
        }
    }
}

// What a pan is set by: 0 is hard left, and 256 hard right.
#[derive(Clone, Copy)]
pub struct PanSettings {
    pub position: u16,
    ghost range: { PanRange position },
}

impl PanSettings {
    // None where the position is above 256.
    pub fn new(position: u16) -> Option<PanSettings>
        ensures { MatchOption result (PanRange position → ⊥) (λ s. s.position ≡ position) }
    {
        if position <= 256 {
            Some(PanSettings { position })
        } else {
            None
        }
    }
}

// What a delay is set by: how many frames it holds a frame back.
#[derive(Clone, Copy)]
pub struct DelaySettings {
    pub frames: u8,
    ghost range: { DelayRange frames },
}

impl DelaySettings {
    // None where the frames are more than 63.
    pub fn new(frames: u8) -> Option<DelaySettings>
        ensures { MatchOption result (DelayRange frames → ⊥) (λ s. s.frames ≡ frames) }
    {
        if frames <= 63 {
            Some(DelaySettings { frames })
        } else {
            None
        }
    }
}

// What a trim is set by: a gain, of which 16,384 is unity.
#[derive(Clone, Copy)]
pub struct TrimSettings {
    pub gain: i16,
}

// What a bypass is set by: whether it passes the unit below by.
#[derive(Clone, Copy)]
pub struct BypassSettings {
    pub on: bool,
}
