ghost use Rattle.std.specs.Prelude.{◌≡◌, ◌<◌, true, ℕ, List, length, Ok, Err, [], ◌∷◌, ◌++◌};
ghost use Rattle.std.specs.List.{list_all};
ghost use Rattle.pl_text.specs.declared.class.Class.TheVariants.{Bad, Letter};
ghost use Rattle.pl_text.specs.declared.token.Token.{Token};
ghost use Rattle.pl_text.specs.declared.fault.TextFault.{TextFault};
ghost use Rattle.pl_text.specs.declared.fault.TextFault.TheVariants.{BadByte, BadNumber, BadName};
ghost use Rattle.pl_text.specs.Bytes.{class_of, is_number_byte, is_name_byte};
ghost use Rattle.pl_text.specs.Tokens.{tokens_of};
ghost use Rattle.pl_text.specs.Pieces.{Piece, spell, ArePieces, tokens_in, end_of, IsBad};
ghost use Rattle.pl_text.specs.Pieces.{Lexes, AreInOrder};

/// What `tokens` reads: the text is made of blanks, comments and tokens, each as long as possible,
/// or is so made up to its first fault. The tokens stand in order.
pub fn tokens_are_sound()
    ensures pieces { (text : List ℕ) → Lexes 0 text (tokens_of text) }
    ensures order { (text : List ℕ) (tokens : List Token) →
        tokens_of text ≡ Ok tokens → AreInOrder 0 (length text) tokens }
{}

/// A text that is made of blanks, comments and tokens, each as long as possible, has these tokens.
pub fn tokens_are_complete()
    ensures { (pieces : List Piece) →
        ArePieces pieces [] → tokens_of (spell pieces []) ≡ Ok (tokens_in 0 pieces) }
{}

/// A text that is made of blanks, comments and tokens up to a place at which none of them begins
/// has exactly the fault of that place, whatever stands behind it. So with `tokens_are_sound` a text
/// has a fault exactly where it is so made.
pub fn faults_are_complete()
    ensures fault { (pieces : List Piece) (rest : List ℕ) (bad : TextFault) →
        ArePieces pieces rest → IsBad bad (end_of 0 pieces) rest →
        tokens_of (spell pieces rest) ≡ Err bad }
    // a byte that belongs to no token, blank or comment
    ensures byte { (pieces : List Piece) (b : ℕ) (more : List ℕ) →
        ArePieces pieces (b ∷ more) → class_of b ≡ Bad →
        tokens_of (spell pieces (b ∷ more)) ≡ Err (BadByte (end_of 0 pieces)) }
    // more than 18 digits in a row
    ensures number { (pieces : List Piece) (digits more : List ℕ) →
        ArePieces pieces (digits ++ more) →
        list_all is_number_byte digits ≡ true → 18 < length digits →
        tokens_of (spell pieces (digits ++ more)) ≡ Err (BadNumber (end_of 0 pieces)) }
    // a letter, and then letters, digits and `_`, more than 32 bytes in all
    ensures name { (pieces : List Piece) (b : ℕ) (bs more : List ℕ) →
        ArePieces pieces (b ∷ (bs ++ more)) → class_of b ≡ Letter →
        list_all is_name_byte bs ≡ true → 32 < length (b ∷ bs) →
        tokens_of (spell pieces (b ∷ (bs ++ more))) ≡ Err (BadName (end_of 0 pieces)) }
{}
