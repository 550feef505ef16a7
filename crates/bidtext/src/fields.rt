ghost use Rattle.std.specs.Prelude.{◌≡◌, ◌≤◌, length};
ghost use Rattle.bidtext.specs.Fields.{fields, field_at, after};
ghost use Rattle.bidtext.specs.Letters.{blank, inner};
ghost use Rattle.std.specs.List.{prefix_len};

use crate::letters::{is_blank, is_inner};

// How many blanks come first.
fn blanks(line: &[u8]) -> usize
    ensures count { result ≡ prefix_len blank line.now }
    ensures within { result ≤ length line.now }
{
    line.iter().take_while(|byte| is_blank(**byte)).count()
}

// How many bytes of a field come first.
fn field_len(line: &[u8]) -> usize
    ensures count { result ≡ prefix_len inner line.now }
    ensures within { result ≤ length line.now }
{
    line.iter().take_while(|byte| is_inner(**byte)).count()
}

// The first field of a line, empty if there is none.
fn first_field(line: &[u8]) -> &[u8]
    ensures { result.now ≡ field_at (fields line.now) 0 }
{
    let rest = &line[blanks(line)..];
    &rest[..field_len(rest)]
}

// What follows the first field.
fn rest_of(line: &[u8]) -> &[u8]
    ensures { fields result.now ≡ after (fields line.now) }
{
    let rest = &line[blanks(line)..];
    &rest[field_len(rest)..]
}

// The field at a place, counted from 0, empty if there is none. Not `nth` of the library's split, which takes long where many
// blanks stand together, as it hands out the empty piece between two of them.
pub(crate) fn field(line: &[u8], place: usize) -> &[u8]
    ensures { result.now ≡ field_at (fields line.now) place }
{
    let mut rest = line;
    for _passed in 0..place {
        rest = rest_of(rest);
    }
    first_field(rest)
}
