ghost use Rattle.std.specs.Prelude.{◌≡◌};
ghost use Rattle.book.specs.Names.{name_character, padded, well_formed, same_name};

use ranking::Name;

fn is_name_character(b: u8) -> bool
    ensures { result ≡ name_character b }
{
    b.is_ascii_uppercase() || b.is_ascii_digit() || b == b'-'
}

// Whether spaces follow the last character, and nothing else does.
fn is_padded(name: Name) -> bool
    ensures { result ≡ padded name }
{
    name.iter()
        .skip_while(|b| is_name_character(**b))
        .all(|b| *b == b' ')
}

// Whether a name has at least one character, and is padded by spaces.
pub(crate) fn is_well_formed(name: Name) -> bool
    ensures { result ≡ well_formed name }
{
    is_name_character(name[0]) && is_padded(name)
}

// Whether two names are the same, byte by byte. They are compared as numbers, since as arrays they took twice as long.
pub(crate) fn is_same_name(a: Name, b: Name) -> bool
    ensures { result ≡ same_name a b }
{
    u64::from_be_bytes(a) == u64::from_be_bytes(b)
}
