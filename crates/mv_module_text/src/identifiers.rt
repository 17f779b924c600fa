// Which bytes are an identifier.

ghost use Rattle.std.specs.Prelude.{◌≡◌, ◌||◌, ◌&&◌, ◌==◌};
ghost use Rattle.std.specs.List.{list_all};
ghost use Rattle.mv_module_text.specs.Fits.{is_letter as letter, is_name_part as name_part, is_identifier as identifier};

// An ASCII letter.
fn is_letter(c: u8) -> bool
    ensures { result ≡ letter c }
{
    c.is_ascii_alphabetic()
}

// What may follow the first byte of an identifier.
fn is_name_part(c: u8) -> bool
    ensures { result ≡ name_part c }
{
    is_letter(c) || c.is_ascii_digit() || c == b'_'
}

// Whether an identifier may begin with this byte, where there are more bytes or none.
fn may_begin(c: u8, has_more: bool) -> bool
    ensures { result ≡ (letter c || (c == 95) && has_more) }
{
    is_letter(c) || c == b'_' && has_more
}

// Whether each byte may stand in an identifier.
fn are_name_parts(bytes: &[u8]) -> bool
    ensures { result ≡ list_all name_part bytes.now }
{
    bytes.iter().all(|c| is_name_part(*c))
}

/// Whether the bytes are an identifier of the Move language: a letter and then letters, digits or `_`, or `_` and at least
/// one of these.
pub fn is_identifier(name: &[u8]) -> bool
    ensures { result ≡ identifier name.now }
{
    let Some((first, rest)) = name.split_first() else {
        return false;
    };
    may_begin(*first, rest.len() > 0) && are_name_parts(rest)
}
