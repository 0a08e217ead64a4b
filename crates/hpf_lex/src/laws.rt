//! Laws of what a text says, each the contract of a function that does nothing.

ghost use Rattle.std.specs.Prelude.{◌≡◌, ◌≤◌, ℕ, false, List, [], ◌∷◌, ◌++◌, ◌⊎◌, length, take, Ok, Err, slice_index, IsTrue};
ghost use Rattle.std.specs.Fmt.{decimal};
ghost use Rattle.std.specs.List.{AllByRecursion};
ghost use Rattle.hpf_lex.specs.declared.lexeme.Lexeme.{Lexeme};
ghost use Rattle.hpf_lex.specs.declared.refusal.Fault.TheVariants.{BadByte};
ghost use Rattle.hpf_lex.specs.declared.refusal.MapRefusal.{MapRefusal};
ghost use Rattle.hpf_lex.specs.declared.token.Token.{Token};
ghost use Rattle.hpf_lex.specs.declared.token.TokenKind.{TokenKind};
ghost use Rattle.hpf_lex.specs.Bytes.{is_blank};
ghost use Rattle.hpf_lex.specs.Lexeme.{lexeme_at, number_of, max_number};
ghost use Rattle.hpf_lex.specs.Cut.{Cut};
ghost use Rattle.hpf_lex.specs.Follows.{StopsAt, IsProper};
ghost use Rattle.hpf_lex.specs.Order.{stands_before, comes_before};
ghost use Rattle.hpf_lex.specs.OneLine.{OneLine, StandFrom, one_line_text, tokens_from};
ghost use Rattle.hpf_lex.specs.Spelling.{IsNumeral, Spells, IsLongest, word_of, number_in};
ghost use Rattle.hpf_lex.specs.Statement.{max_text, marks, text_marks};
ghost use Rattle.hpf_lex.specs.Text.{HasTokens, HasFault, tokens_of, faults_of};

/// A text has its tokens or a first fault, never both, and one of them alone.
pub fn one_reading()
    ensures some { (text : List ℕ)
        → ((tokens : List Token) × HasTokens text tokens) ⊎ ((f : MapRefusal) × HasFault text f) }
    ensures never_both { (text : List ℕ) (tokens : List Token) (f : MapRefusal)
        → HasTokens text tokens → HasFault text f → ⊥ }
    ensures one_list { (text : List ℕ) (a b : List Token) → HasTokens text a → HasTokens text b → a ≡ b }
    ensures one_fault { (text : List ℕ) (f g : MapRefusal) → HasFault text f → HasFault text g → f ≡ g }
{}

/// A text has tokens exactly where it has at most 1,048,576 bytes and nothing in it is a fault, and then they are all of
/// its tokens. Else the first fault of a text of at most that length is one of its faults, and stands before each of the
/// others.
pub fn first_fault()
    ensures tokens { (text : List ℕ) (tokens : List Token) → HasTokens text tokens
        → (length text ≤ max_text) × (faults_of (text_marks text) ≡ []) × (tokens ≡ tokens_of (text_marks text)) }
    ensures no_fault { (text : List ℕ) → length text ≤ max_text → faults_of (text_marks text) ≡ []
        → HasTokens text (tokens_of (text_marks text)) }
    ensures first { (text : List ℕ) (f : MapRefusal) → length text ≤ max_text → HasFault text f
        → (others : List MapRefusal) × (faults_of (text_marks text) ≡ f ∷ others)
        × AllByRecursion (λ g. IsTrue (stands_before f g)) others }
{}

/// Of two different refusals one comes first, and the order goes on from one to the next.
pub fn order_of_refusals()
    ensures never_round { (f g : MapRefusal) → IsTrue (comes_before f g) → IsTrue (comes_before g f) → ⊥ }
    ensures goes_on { (f g h : MapRefusal) → IsTrue (comes_before f g) → IsTrue (comes_before g h)
        → IsTrue (comes_before f h) }
    ensures one_first { (f g : MapRefusal) → comes_before f g ≡ false → comes_before g f ≡ false → f ≡ g }
{}

/// A token is the longest that stands at its place, and a byte that begins no token is called so rightly.
pub fn longest_token()
    ensures longest { (bytes : List ℕ) (found : Lexeme) → lexeme_at bytes ≡ Ok found → IsLongest found bytes }
    ensures bad_byte { (bytes : List ℕ) → lexeme_at bytes ≡ Err BadByte
        → (kind : TokenKind) (n : ℕ) → n ≤ length bytes → Spells kind (take n bytes) → ⊥ }
{}

/// Bytes of a line that have no fault are blanks, a token, blanks, a token, and so on to their end. Their tokens are these
/// and no others.
pub fn cut_into_tokens()
    ensures cut { (line column : ℕ) (bytes : List ℕ) → faults_of (marks line column 0 bytes) ≡ []
        → Cut line column bytes (tokens_of (marks line column 0 bytes)) }
    ensures only { (line column : ℕ) (bytes : List ℕ) (tokens : List Token) → Cut line column bytes tokens
        → (faults_of (marks line column 0 bytes) ≡ []) × (tokens_of (marks line column 0 bytes) ≡ tokens) }
{}

/// A token is found where it is spelled, and what stands behind doesn't go on with it. Its first byte is no blank.
pub fn spelled_token()
    ensures found { (kind : TokenKind) (spelling rest : List ℕ) → Spells kind spelling → StopsAt kind rest
        → lexeme_at (spelling ++ rest)
        ≡ Ok (record { kind = kind; word = word_of kind spelling; number = number_in kind spelling; width = length spelling }) }
    ensures no_blank { (kind : TokenKind) (spelling rest : List ℕ) → Spells kind spelling
        → is_blank (slice_index (spelling ++ rest) 0) ≡ false }
{}

/// A number that isn't too great is spelled in decimal.
pub fn numeral()
    ensures { (n : ℕ) → n ≤ max_number → IsNumeral (decimal n) × (number_of (decimal n) ≡ n) }
{}

/// The words of a text's tokens are names in upper case, and its numbers aren't too great.
pub fn proper_tokens()
    ensures { (text : List ℕ) (tokens : List Token) → HasTokens text tokens → AllByRecursion IsProper tokens }
{}

/// Statements on one line each have their tokens and no fault, however long their text is. A text of them that isn't too
/// long has these tokens.
pub fn one_line_each()
    ensures marks { (ss : List OneLine) → StandFrom 1 ss → (faults_of (text_marks (one_line_text ss)) ≡ [])
        × (tokens_of (text_marks (one_line_text ss)) ≡ tokens_from 1 ss) }
    ensures tokens { (ss : List OneLine) → StandFrom 1 ss → length (one_line_text ss) ≤ max_text
        → HasTokens (one_line_text ss) (tokens_from 1 ss) }
{}
