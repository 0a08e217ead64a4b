//! What a byte may be in a mapping text.

ghost use Rattle.std.specs.Prelude.{◌≡◌};
ghost use Rattle.hpf_lex.specs.Bytes.{is_blank, is_letter, is_digit, is_name_byte, upper};

/// A blank or a tab.
#[tactic(auto, unfolding(crate::specs::Bytes::is_blank))]
pub fn is_blank(byte: u8) -> bool
    ensures { result ≡ is_blank byte }
{
    byte == b' ' || byte == b'\t'
}

/// `A` to `Z`, or `a` to `z`.
pub fn is_letter(byte: u8) -> bool
    ensures { result ≡ is_letter byte }
{
    byte >= b'A' && byte <= b'Z' || byte >= b'a' && byte <= b'z'
}

/// `0` to `9`.
pub fn is_digit(byte: u8) -> bool
    ensures { result ≡ is_digit byte }
{
    byte >= b'0' && byte <= b'9'
}

/// What may stand in a name behind its first letter.
pub fn is_name_byte(byte: u8) -> bool
    ensures { result ≡ is_name_byte byte }
{
    is_letter(byte) || is_digit(byte) || byte == b'_'
}

/// A letter as upper case, and any other byte as it is.
pub fn upper(byte: u8) -> u8
    ensures { result ≡ upper byte }
{
    byte.to_ascii_uppercase()
}
