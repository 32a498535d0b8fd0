//! Laws of the lexer and of the grammar, as the contracts of functions that do nothing.

ghost use Rattle.std.specs.Prelude.{◌≡◌, ◌⊎◌, ℕ, suc, ◌+◌, true, List, [], ◌∷◌, ◌++◌, length, drop, codes};
ghost use Rattle.expr_grammar.specs.declared.limit.Span.{Span};
ghost use Rattle.expr_grammar.specs.declared.limit.Span.TheVariants.{Statement};
ghost use Rattle.expr_grammar.specs.declared.token.TokenKind.{TokenKind};
ghost use Rattle.expr_grammar.specs.Lexeme.{Lexeme};
ghost use Rattle.expr_grammar.specs.Lexing.{IsGapFront, IsTokenFront, Divides, AreTokensOf, IsFirstBad};
ghost use Rattle.expr_grammar.specs.Tree.{Tree, StmtTree};
ghost use Rattle.expr_grammar.specs.Grammar.{ReadsExpr, ReadsCode};
ghost use Rattle.expr_grammar.specs.Reading.{is_mark};
ghost use Rattle.expr_grammar.specs.Refusal.{IsAccepted, IsUnexpectedFirst, IsDeepFirst, NoneDeepBefore};
ghost use Rattle.expr_grammar.specs.Alike.{AllAlike};
ghost use Rattle.expr_grammar.specs.Moved.{SameFront, AreMoved};
ghost use Rattle.expr_grammar.specs.Bare.{bare, bare_code};
ghost use Rattle.expr_grammar.specs.Plain.{ArePlain};
ghost use Rattle.expr_grammar.specs.Fits.{Fits};

/// Each list of tokens has at most one tree.
pub fn one_tree()
    ensures { (ts : List Lexeme) (x y : Tree) → ReadsExpr ts x → ReadsExpr ts y → x ≡ y }
{}

/// Each list of tokens is the code of at most one list of statements.
pub fn one_code()
    ensures { (ts : List Lexeme) (x y : List StmtTree) → ReadsCode ts x → ReadsCode ts y → x ≡ y }
{}

/// Two lists of tokens of one expression differ only in the spelling of numbers and in places.
pub fn one_spelling()
    ensures { (e : Tree) (ts us : List Lexeme) → ReadsExpr ts e → ReadsExpr us e → AllAlike ts us }
{}

/// Two lists of tokens of one code differ only in the spelling of numbers and in places.
pub fn one_code_spelling()
    ensures { (code : List StmtTree) (ts us : List Lexeme) → ReadsCode ts code → ReadsCode us code → AllAlike ts us }
{}

/// A blank, a comment or a token at the front of a text depends on its own bytes and on the next one alone.
pub fn pieces_are_local()
    ensures gap { (n : ℕ) (bs cs : List ℕ) → SameFront (suc n) bs cs → IsGapFront n bs → IsGapFront n cs }
    ensures token { (kind : TokenKind) (n : ℕ) (bs cs : List ℕ) → SameFront (suc n) bs cs → IsTokenFront kind n bs → IsTokenFront kind n cs }
{}

/// Let two texts agree from two offsets on, on some length and one byte more. Then the tokens of that length are the same in both except
/// for their places.
pub fn tokens_move()
    ensures { (text new : List ℕ) (from to len : ℕ) (ts : List Lexeme) → Divides text from ts (from + len) → SameFront (suc len) (drop from text) (drop to new)
        → (us : List Lexeme) × Divides new to us (to + len) × AreMoved ts us }
{}

/// Moved tokens read as the tree that differs in its places alone, and none of them is too deep where none was.
pub fn moved_tokens_read_alike()
    ensures expression { (ts us : List Lexeme) (e : Tree) → ReadsExpr ts e → AreMoved ts us → (moved : Tree) × ReadsExpr us moved × (bare moved ≡ bare e) }
    ensures code { (ts us : List Lexeme) (code : List StmtTree) → ReadsCode ts code → AreMoved ts us
        → (moved : List StmtTree) × ReadsCode us moved × (bare_code moved ≡ bare_code code) }
    ensures accepted { (ts us : List Lexeme) (code : List StmtTree) → IsAccepted ReadsCode Statement ts code → AreMoved ts us
        → (moved : List StmtTree) × IsAccepted ReadsCode Statement us moved × (bare_code moved ≡ bare_code code) }
{}

/// No token of an expression is `;` or `__var`.
pub fn expressions_are_plain()
    ensures { (ts : List Lexeme) (e : Tree) → ReadsExpr ts e → ArePlain ts }
{}

/// Whether a token of statements is too deep is said token by token, with the tokens of its statement so far. So each statement counts for
/// itself, and places do not count.
pub fn tokens_fit()
    ensures fits { (ts : List Lexeme) → NoneDeepBefore Statement ts (length ts) → Fits [] ts }
    ensures none_deep { (ts : List Lexeme) → Fits [] ts → NoneDeepBefore Statement ts (length ts) }
    ensures after { (own front rest : List Lexeme) (semicolon : Lexeme) → is_mark (codes ";") semicolon ≡ true → Fits own (front ++ semicolon ∷ rest) → Fits [] rest }
    ensures other { (own front rest next : List Lexeme) (semicolon : Lexeme) → is_mark (codes ";") semicolon ≡ true → Fits own (front ++ semicolon ∷ rest) → Fits [] next
        → Fits own (front ++ semicolon ∷ next) }
    ensures moved { (ts us : List Lexeme) → Fits [] ts → AreMoved ts us → Fits [] us }
{}

/// Each text has tokens or a first bad place. Each list of tokens is an expression, or it has a first token, or its end, that is unexpected or
/// too deep. The same is true of code.
pub fn every_text_is_read_or_refused()
    ensures tokens { (text : List ℕ) → ((ts : List Lexeme) × AreTokensOf text ts) ⊎ ((bad : ℕ) × IsFirstBad text bad) }
    ensures expression { (span : Span) (ts : List Lexeme) → ((e : Tree) × IsAccepted ReadsExpr span ts e)
        ⊎ (((i : ℕ) × IsUnexpectedFirst ReadsExpr span ts i) ⊎ ((i : ℕ) × IsDeepFirst ReadsExpr span ts i)) }
    ensures code { (span : Span) (ts : List Lexeme) → ((code : List StmtTree) × IsAccepted ReadsCode span ts code)
        ⊎ (((i : ℕ) × IsUnexpectedFirst ReadsCode span ts i) ⊎ ((i : ℕ) × IsDeepFirst ReadsCode span ts i)) }
{}
