ghost use Rattle.std.specs.Prelude.{◌≡◌, ◌%◌, ◌≤◌, true, IfOk};
ghost use Rattle.session.specs.Contents.{delay, effect, fir, fits_unit, limit, pan};
ghost use Rattle.forms.specs.Forms.{count_form, delay_form, fir_form, kind_form, limit_form, pan_form, taps_form};
ghost use Rattle.words.specs.Parsing.{paired};
ghost use Rattle.words.specs.Words.{cursor};

use crate::forms::{gain, keyword, ranged};
use session::settings::Kind;
use units::settings::{DelaySettings, FirSettings, LimitSettings, PanSettings};
use words::faults::ReadFault;
use words::words::Words;

// The number of taps: odd.
fn count(words: &mut Words<'_>) -> Result<u8, ReadFault>
    ensures value { paired (λ x. x) result (cursor words.new) ≡ count_form (cursor words.old) }
    ensures range { IfOk result (λ n. (n % 2 ≡ 1) × (n ≤ 31)) }
{
    let word = words.word()?;
    let n = word.number(1, 31)?;
    if n % 2 != 1 {
        return Err(ReadFault::Number(word.place));
    }
    Ok(n as u8)
}

// Reads `count` taps to the front of `taps`.
fn fill(words: &mut Words<'_>, taps: &mut [i16; 31], count: u8) -> Result<(), ReadFault>
    requires { count ≤ 31 }
    ensures { paired (λ _. taps.new) result (cursor words.new) ≡ taps_form 0 count taps.old (cursor words.old) }
{
    for tap in &mut taps[..usize::from(count)] {
        *tap = gain(words)?;
    }
    Ok(())
}

fn fir(words: &mut Words<'_>) -> Result<FirSettings, ReadFault>
    ensures { paired (λ s. fir s.taps s.count) result (cursor words.new) ≡ fir_form (cursor words.old) }
{
    keyword(words, b"fir")?;
    let count = count(words)?;
    let mut taps = [0; 31];
    fill(words, &mut taps, count)?;
    Ok(FirSettings { taps, count })
}

fn limit(words: &mut Words<'_>) -> Result<LimitSettings, ReadFault>
    ensures { paired (λ s. limit s.lookahead s.ceiling) result (cursor words.new) ≡ limit_form (cursor words.old) }
{
    keyword(words, b"limit")?;
    let lookahead = ranged(words, 0, 63)?;
    let ceiling = ranged(words, 1, 32767)?;
    Ok(LimitSettings {
        lookahead: lookahead as u8,
        ceiling: ceiling as u16,
    })
}

// A pan and a delay differ in their settings' type, word and range, which a function over both would be handed one by one.
fn pan(words: &mut Words<'_>) -> Result<PanSettings, ReadFault>
    ensures { paired (λ s. pan s.position) result (cursor words.new) ≡ pan_form (cursor words.old) }
{
    keyword(words, b"pan")?;
    let position = ranged(words, 0, 256)?;
    Ok(PanSettings {
        position: position as u16,
    })
}

fn delay(words: &mut Words<'_>) -> Result<DelaySettings, ReadFault>
    ensures { paired (λ s. delay s.frames) result (cursor words.new) ≡ delay_form (cursor words.old) }
{
    keyword(words, b"delay")?;
    let frames = ranged(words, 0, 63)?;
    Ok(DelaySettings {
        frames: frames as u8,
    })
}

// The kind that unit `s` has to have, with its settings; from 6 on, a delay. A unit's number decides, as in the definition.
pub fn kind(words: &mut Words<'_>, s: u8) -> Result<Kind, ReadFault>
    ensures value { paired effect result (cursor words.new) ≡ kind_form s (cursor words.old) }
    ensures fits { s ≤ 7 → IfOk result (λ k. fits_unit s (effect k) ≡ true) }
{
    match s {
        0..=1 => fir(words).map(Kind::Fir),
        2..=3 => limit(words).map(Kind::Limit),
        4..=5 => pan(words).map(Kind::Pan),
        _ => delay(words).map(Kind::Delay),
    }
}
