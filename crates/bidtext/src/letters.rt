ghost use Rattle.std.specs.Prelude.{◌≡◌};
ghost use Rattle.bidtext.specs.Letters.{blank, inner, mark};

// Whether a byte is a space, a tab or a carriage return.
pub(crate) fn is_blank(byte: u8) -> bool
    ensures { result ≡ blank byte }
{
    matches!(byte, b' ' | b'\t' | b'\r')
}

// Whether a byte may stand in a field: no blank, and no `#`, which begins a comment.
pub(crate) fn is_inner(byte: u8) -> bool
    ensures { result ≡ inner byte }
{
    !is_blank(byte) && byte != b'#'
}

// Whether a byte is a mark of a name.
pub(crate) fn is_mark(byte: u8) -> bool
    ensures { result ≡ mark byte }
{
    byte.is_ascii_graphic() && byte != b'#'
}
