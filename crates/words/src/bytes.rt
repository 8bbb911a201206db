ghost use Rattle.std.specs.Prelude.{◌≡◌, ◌≤◌, length};
ghost use Rattle.words.specs.Bytes.{all_digits, all_letters, is_digit, is_known, is_letter, known_run};

// The project sets this form: a byte is taken as a character and classed by literals and ranges.
fn is_letter(b: u8) -> bool
    ensures { result ≡ is_letter b }
{
    matches!(char::from(b), 'a'..='z')
}

fn is_digit(b: u8) -> bool
    ensures { result ≡ is_digit b }
{
    matches!(char::from(b), '0'..='9')
}

// A letter, a digit, a hyphen or a space.
fn is_known(b: u8) -> bool
    ensures { result ≡ is_known b }
{
    matches!(char::from(b), 'a'..='z' | '0'..='9' | '-' | ' ')
}

// How many bytes stand before the first that is not known.
pub fn known_run(bytes: &[u8]) -> usize
    ensures value { result ≡ known_run bytes.now }
    ensures bound { result ≤ length bytes.now }
{
    let found = bytes.iter().position(|b| !is_known(*b));
    found.unwrap_or(bytes.len())
}

#[tactic(auto, unfolding(crate::specs::Bytes::all_letters))]
pub fn all_letters(bytes: &[u8]) -> bool
    ensures { result ≡ all_letters bytes.now }
{
    bytes.iter().all(|b| is_letter(*b))
}

#[tactic(auto, unfolding(crate::specs::Bytes::all_digits))]
pub fn all_digits(bytes: &[u8]) -> bool
    ensures { result ≡ all_digits bytes.now }
{
    bytes.iter().all(|b| is_digit(*b))
}
