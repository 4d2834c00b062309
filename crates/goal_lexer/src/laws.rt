//! Laws of the tokens of a text, and of lexers.
ghost use Rattle.std.specs.Prelude.{◌≡◌, ℕ, true, false, List, ◌++◌, length, Some, None};
ghost use Rattle.goal_lexer.specs.Scan.{lexed};
ghost use Rattle.goal_lexer.specs.declared.tokens.Token.{Token};
ghost use Rattle.goal_lexer.specs.State.{LexState};
ghost use Rattle.goal_lexer.specs.Stands.{Stands, handed, begins_run};
ghost use Rattle.goal_lexer.specs.Open.{IsTaken, IsCutOff};
ghost use Rattle.goal_lexer.specs.Pieces.{IsReading, Piece, IsCutInto, NothingBegins, EndsWith, tokens_of, spelled};

/// The contracts of the lexer speak of the scan of a text (`lexed`). Its tokens and fault are those of the text cut
/// into pieces: tokens, blanks and comments, each run as long as possible, up to the end of the text or to where none
/// of these begins. There is only one such cut. The tokens that a lexer has returned are the first of every
/// continuation of the text, and while a lexer has met no fault, some continuation has none.
pub fn laws_of_tokens()
    // Every text can be cut into such pieces. Their tokens and fault are the scan's.
    ensures reading { (text : List ℕ) → IsReading 0 text (lexed text).0 (lexed text).1 }

    // However a text is cut into such pieces, the tokens and the fault are the scan's.
    ensures only { (text : List ℕ) (pieces : List Piece) (rest : List ℕ) → IsCutInto text pieces rest → NothingBegins rest →
        ((lexed text).0 ≡ tokens_of 0 pieces) × EndsWith (lexed text).1 (length (spelled pieces)) rest }

    // There is only one such cut: two have the same pieces and the same rest.
    ensures one { (text : List ℕ) (pieces others : List Piece) (rest left : List ℕ) → IsCutInto text pieces rest → NothingBegins rest →
        IsCutInto text others left → NothingBegins left → (pieces ≡ others) × (rest ≡ left) }

    // The tokens that a lexer has returned are the first of every continuation that does not continue a returned run.
    ensures first { (lexer : LexState) (text more : List ℕ) → Stands lexer text → (lexer.ends_run ≡ true → begins_run more ≡ false) →
        (later : List Token) × ((lexed (text ++ more)).0 ≡ handed lexer text ++ later) }

    // A text that a lexer represents has a continuation without a fault.
    ensures goes_on { (lexer : LexState) (text : List ℕ) → Stands lexer text → (more : List ℕ) × ((lexed (text ++ more)).1 ≡ None) }
{}

/// What a lexer represents, by the rules of pieces: it has taken whole pieces (tokens, blanks and comments), followed
/// by what is open: a run, a `/`, a comment, or nothing. The tokens that it has returned are those of the pieces.
pub fn laws_of_lexers()
    // A text that a lexer represents consists of pieces that are whole, whatever follows, and then of what is open.
    ensures taken { (lexer : LexState) (text : List ℕ) → Stands lexer text → IsTaken lexer text }

    // A lexer represents each such text.
    ensures stands { (lexer : LexState) (text : List ℕ) → IsTaken lexer text → Stands lexer text }

    // The tokens that it has returned are those of the pieces.
    ensures handed { (lexer : LexState) (text : List ℕ) (taken : IsTaken lexer text) → handed lexer text ≡ tokens_of 0 taken.pieces }

    // If such a text ended here and had a fault, it would be at a last `/` or at an unclosed block comment.
    ensures cut_off { (lexer : LexState) (text : List ℕ) (at : ℕ) → Stands lexer text → (lexed text).1 ≡ Some at → IsCutOff text at }
{}
