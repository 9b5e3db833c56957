ghost use Rattle.std.specs.Prelude.{◌≡◌, true};
ghost use Rattle.pl_syntax.specs.declared.token.Token.{Token};
ghost use Rattle.pl_syntax.specs.Tokens.{same};

/// The test of a token against a word or a symbol says that it is that word or symbol.
pub fn tokens_are_told_apart()
    ensures { (t wanted : Token) → same t wanted ≡ true → t ≡ wanted }
{}
