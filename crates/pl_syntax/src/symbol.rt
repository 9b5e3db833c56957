ghost use Rattle.std.specs.Prelude.{◌≡◌, IfSome, IsNone, ◌↔◌};
ghost use Rattle.pl_syntax.specs.Symbols.{symbol_byte, symbol_of};

/// A mark of the model language that is one byte: `byte` tells which.
#[derive(Clone, Copy, PartialEq, Eq)]
pub enum Symbol {
    OpenBrace,
    CloseBrace,
    Open,
    Close,
    Comma,
    Equals,
    Plus,
    Minus,
    Times,
}

impl Symbol {
    /// The symbol as it is written.
    pub fn byte(self) -> u8
        ensures { result ≡ symbol_byte self }
    {
        match self {
            Symbol::OpenBrace => b'{',
            Symbol::CloseBrace => b'}',
            Symbol::Open => b'(',
            Symbol::Close => b')',
            Symbol::Comma => b',',
            Symbol::Equals => b'=',
            Symbol::Plus => b'+',
            Symbol::Minus => b'-',
            Symbol::Times => b'*',
        }
    }

    /// The symbol that is written so.
    #[tactic(auto, unfolding(crate::specs::Symbols::symbol_of))]
    pub fn of_byte(byte: u8) -> Option<Symbol>
        ensures { result ≡ symbol_of byte }
    {
        match byte {
            b'{' => Some(Symbol::OpenBrace),
            b'}' => Some(Symbol::CloseBrace),
            b'(' => Some(Symbol::Open),
            b')' => Some(Symbol::Close),
            b',' => Some(Symbol::Comma),
            b'=' => Some(Symbol::Equals),
            b'+' => Some(Symbol::Plus),
            b'-' => Some(Symbol::Minus),
            b'*' => Some(Symbol::Times),
            _ => None,
        }
    }
}
