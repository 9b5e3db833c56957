/// What a token is. A reserved word has the kind `Name` too: `is_name` tells them apart.
#[derive(Clone, Copy, Debug, PartialEq, Eq)]
pub enum TokenKind {
    Name,
    Number(u64),
    Symbol(u8),
}

/// A token and the bytes that it takes, from `from` up to but not at `to`.
#[derive(Clone, Copy, Debug, PartialEq, Eq)]
pub struct Token {
    pub kind: TokenKind,
    pub from: u32,
    pub to: u32,
}
