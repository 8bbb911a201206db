ghost use Rattle.std.specs.Prelude.{◌≡◌};
ghost use Rattle.words.specs.Pieces.{split};
ghost use Rattle.text.specs.Reading.{bytes_check, spaces_check};

use words::bytes::known_run;
use words::faults::{Place, ReadFault};
use words::pieces::Pieces;
use words::shorts::Short;

// A line has known bytes only, and a 0A ends it; `last` says that none does, as the definition of reading takes it.
pub fn check_bytes(line: Short<'_>, row: usize, last: bool) -> Result<(), ReadFault>
    ensures { result ≡ bytes_check row line.entry.bytes.now last }
{
    let bytes = line.bytes();
    let run = known_run(bytes);
    if last || run < bytes.len() {
        return Err(ReadFault::Byte(Place {
            line: row,
            column: run + 1,
        }));
    }
    Ok(())
}

// A word stands wherever one should begin. Columns count from 1, so a missing word's column is where the next piece begins.
pub fn check_spaces(line: Short<'_>, row: usize) -> Result<(), ReadFault>
    ensures { result ≡ spaces_check row 1 (split 32 line.entry.bytes.now) }
{
    let mut words = Pieces::new(line, b' ');
    while let Some(word) = words.next() {
        if word.bytes().is_empty() {
            return Err(ReadFault::Space(Place {
                line: row,
                column: words.at(),
            }));
        }
    }
    Ok(())
}
