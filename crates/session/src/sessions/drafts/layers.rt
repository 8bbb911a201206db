ghost use Rattle.std.specs.Prelude.{◌≡◌, is_ok, if◌then◌else◌};
ghost use Rattle.session.specs.Contents.{bypass_fits, effect, fits_unit, trim_fits, unit_fits, with_bypass, with_trim, with_unit};
ghost use Rattle.session.specs.Drafts.{draft};

use crate::sessions::drafts::{Draft, DraftFault};
use crate::settings::Kind;
use units::settings::TrimSettings;

// Which units a kind is for.
fn is_for(s: u8, kind: &Kind) -> bool
    ensures { result ≡ fits_unit s (effect kind.now) }
{
    match kind {
        Kind::Fir(_) => s < 2,
        Kind::Limit(_) => 2 <= s && s < 4,
        Kind::Pan(_) => 4 <= s && s < 6,
        Kind::Delay(_) => 6 <= s && s < 8,
    }
}

// One entry of the table is lent to be changed, as the project sets.
impl Draft {
    // Sets unit `s`; it is unfit where it is set before or the kind is not for it.
    #[tactic(auto, using(crate::proofs::Drafting::still_eight, crate::proofs::Drafting::lawful_kind, crate::proofs::Entries::after_kind))]
    pub fn set_unit(&mut self, s: u8, kind: Kind) -> Result<(), DraftFault>
        ensures fits { result ≡ (if unit_fits (draft self.old) s (effect kind) then Ok tt else Err DraftFault.Unfit) }
        ensures after { draft self.new ≡ (if is_ok result then with_unit (draft self.old) s (effect kind) else draft self.old) }
    {
        if !is_for(s, &kind) || self.is_set(s) {
            return Err(DraftFault::Unfit);
        }
        let table = &mut self.settings;
        let entry = &mut table[usize::from(s)];
        entry.kind = Some(kind);
        Ok(())
    }

    // Gives a trim for unit `s`; it is unfit where the unit is not set or has one.
    #[tactic(auto, using(crate::proofs::Drafting::still_eight, crate::proofs::Drafting::lawful_layer, crate::proofs::Entries::after_trim))]
    pub fn give_trim(&mut self, s: u8, trim: TrimSettings) -> Result<(), DraftFault>
        ensures fits { result ≡ (if trim_fits (draft self.old) s then Ok tt else Err DraftFault.Unfit) }
        ensures after { draft self.new ≡ (if is_ok result then with_trim (draft self.old) s trim.gain else draft self.old) }
    {
        if !self.is_set(s) || self.has_trim(s) {
            return Err(DraftFault::Unfit);
        }
        let table = &mut self.settings;
        let entry = &mut table[usize::from(s)];
        entry.trim = Some(trim.gain);
        Ok(())
    }

    // Gives a bypass for unit `s`; it is unfit where the unit is not set or has one.
    #[tactic(auto, using(crate::proofs::Drafting::still_eight, crate::proofs::Drafting::lawful_layer, crate::proofs::Entries::after_bypass))]
    pub fn give_bypass(&mut self, s: u8) -> Result<(), DraftFault>
        ensures fits { result ≡ (if bypass_fits (draft self.old) s then Ok tt else Err DraftFault.Unfit) }
        ensures after { draft self.new ≡ (if is_ok result then with_bypass (draft self.old) s else draft self.old) }
    {
        if !self.is_set(s) || self.has_bypass(s) {
            return Err(DraftFault::Unfit);
        }
        let table = &mut self.settings;
        let entry = &mut table[usize::from(s)];
        entry.bypass = true;
        Ok(())
    }
}
