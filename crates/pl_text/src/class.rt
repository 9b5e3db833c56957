ghost use Rattle.std.specs.Prelude.{◌≡◌};
ghost use Rattle.pl_text.specs.Bytes.{class_of, is_name_byte, is_number_byte};

/// What a byte begins, outside of a comment.
#[derive(Clone, Copy, PartialEq, Eq)]
pub enum Class {
    Blank,
    Comment,
    Letter,
    Digit,
    Symbol,
    Bad,
}

/// What the byte begins, where it stands in no comment and in no token.
#[tactic(auto, unfolding(crate::specs::Bytes::class_of))]
pub fn class_of(byte: u8) -> Class
    ensures { result ≡ class_of byte }
{
    match byte {
        b' ' | b'\t' | b'\r' | b'\n' => Class::Blank,
        b'#' => Class::Comment,
        b'a'..=b'z' | b'A'..=b'Z' => Class::Letter,
        b'0'..=b'9' => Class::Digit,
        b'{' | b'}' | b'(' | b')' | b',' | b'=' | b'+' | b'-' | b'*' => Class::Symbol,
        _ => Class::Bad,
    }
}

/// Whether a name may go on with the byte.
#[tactic(auto, using(crate::proofs::Classes::name_is))]
pub fn is_name_byte(byte: u8) -> bool
    ensures { result ≡ is_name_byte byte }
{
    matches!(byte, b'a'..=b'z' | b'A'..=b'Z' | b'0'..=b'9' | b'_')
}

/// Whether a number may go on with the byte.
#[tactic(auto, using(crate::proofs::Classes::number_is))]
pub fn is_number_byte(byte: u8) -> bool
    ensures { result ≡ is_number_byte byte }
{
    matches!(byte, b'0'..=b'9')
}
