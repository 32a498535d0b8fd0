//! Laws of names and values as a text, and of texts with their values replaced, as the contracts of functions that do nothing.
ghost use Rattle.std.specs.Prelude.{◌≡◌, ◌≢◌, ℕ, List, Ok, Err, Some, length, ◌+◌, ◌*◌, ◌<◌, ◌≤◌, ◌^◌, ◌⊎◌};
ghost use Rattle.dap_base.specs.declared.text.Place.{Place};
ghost use Rattle.dap_base.specs.Number.{number_value};
ghost use Rattle.text_lines.specs.Hex.{hex};
ghost use Rattle.expr_grammar.specs.Lexeme.{Lexeme};
ghost use Rattle.expr_grammar.specs.Lexing.{AreTokensOf};
ghost use Rattle.expr_grammar.specs.Grammar.{ReadsCode};
ghost use Rattle.expr_grammar.specs.Refusal.{IsAccepted};
ghost use Rattle.expr_grammar.specs.declared.limit.Span.TheVariants.{Statement};
ghost use Rattle.expr_grammar.specs.Tree.{StmtTree};
ghost use Rattle.expr_grammar.specs.Bare.{bare_code};
ghost use Rattle.dbgconf_text.specs.declared.conf.ConfFault.{ConfFault};
ghost use Rattle.dbgconf_text.specs.declared.conf.ConfFault.TheVariants as faults;
ghost use Rattle.dbgconf_text.specs.declared.conf.ConfItem.{ConfItem};
ghost use Rattle.dbgconf_text.specs.Conf.{AnswersText, IsConf, IsRepeatedFirst, IsUnexpectedFirst};
ghost use Rattle.dbgconf_text.specs.Cuts.{AreSmall, Setting, cuts, spliced_text, with_values};
ghost use Rattle.dbgconf_text.specs.Replacing.{AreCode, Replaces, settings_of};
ghost use Rattle.dbgconf_text.specs.There.{AreThere};
ghost use Rattle.dbgconf_text.specs.Written.{AreNames};
ghost use Rattle.dbgconf_text.specs.declared.replacing.ReplaceFault.TheVariants.{UndefinedName};

/// Tokens are those of one list of names and values at most.
pub fn one_conf()
    ensures { (ts : List Lexeme) (x y : List ConfItem) → IsConf ts x → IsConf ts y → x ≡ y }
{}

/// Tokens that are refused are refused for one reason, at one place, and are not those of names and values. So a text has one fault at most.
pub fn one_refusal()
    ensures unexpected { (ts : List Lexeme) (i j : ℕ) → IsUnexpectedFirst ts i → IsUnexpectedFirst ts j → i ≡ j }
    ensures repeated { (ts : List Lexeme) (i j : ℕ) → IsRepeatedFirst ts i → IsRepeatedFirst ts j → i ≡ j }
    ensures either { (ts : List Lexeme) (i j : ℕ) → IsUnexpectedFirst ts i → IsRepeatedFirst ts j → ⊥ }
    ensures not_unexpected { (ts : List Lexeme) (conf : List ConfItem) (i : ℕ) → IsConf ts conf → IsUnexpectedFirst ts i → ⊥ }
    ensures not_repeated { (ts : List Lexeme) (conf : List ConfItem) (i : ℕ) → IsConf ts conf → IsRepeatedFirst ts i → ⊥ }
    ensures text { (text : List ℕ) (x y : ConfFault) → AnswersText text (Err x) → AnswersText text (Err y)
        → x ≢ faults.OutOfMemory → y ≢ faults.OutOfMemory → x ≡ y }
{}

/// Each list of tokens is that of names and values, or is refused.
pub fn conf_or_fault()
    ensures { (ts : List Lexeme) → ((conf : List ConfItem) × IsConf ts conf) ⊎ (((i : ℕ) × IsUnexpectedFirst ts i) ⊎ ((i : ℕ) × IsRepeatedFirst ts i)) }
{}

/// What can be read from a text is spelled as names and values of 64 bits, and takes at least four bytes for each.
pub fn conf_fits()
    ensures names { (text : List ℕ) (ts : List Lexeme) (conf : List ConfItem) → AreTokensOf text ts → IsConf ts conf → AreNames conf }
    ensures values { (ts : List Lexeme) (conf : List ConfItem) → IsConf ts conf → AreSmall (settings_of conf) }
    ensures size { (text : List ℕ) (ts : List Lexeme) (conf : List ConfItem) → AreTokensOf text ts → IsConf ts conf → 4 * length conf ≤ length text }
{}

/// What is written for a number of 64 bits is a token of it.
pub fn numbers_are_tokens()
    ensures { (value : ℕ) → value < 2 ^ 64 → number_value (hex value) ≡ Some value }
{}

/// A text and values have one text with the values, or one place of a name that is not declared, and never both.
pub fn one_replacement()
    ensures text { (text : List ℕ) (conf : List ConfItem) (x y : List ℕ) → Replaces text conf (Ok x) → Replaces text conf (Ok y) → x ≡ y }
    ensures place { (text : List ℕ) (conf : List ConfItem) (x y : Place)
        → Replaces text conf (Err (UndefinedName x)) → Replaces text conf (Err (UndefinedName y)) → x ≡ y }
    ensures either { (text : List ℕ) (conf : List ConfItem) (x : List ℕ) (y : Place) → Replaces text conf (Ok x) → Replaces text conf (Err (UndefinedName y)) → ⊥ }
{}

/// Code and values have a text with the values, or a place of a name that is not declared.
pub fn replacement_or_place()
    ensures { (text : List ℕ) (ts : List Lexeme) (conf : List ConfItem) → AreTokensOf text ts → AreCode ts
        → ((new : List ℕ) × Replaces text conf (Ok new)) ⊎ ((at : Place) × Replaces text conf (Err (UndefinedName at))) }
{}

/// Put a number in the place of the value in the first declaration of each name, in a text of code. The text reads as the code with these
/// values replaced, apart from places.
pub fn replaced_text_reads_as_replaced_code()
    ensures { (text : List ℕ) (set : List Setting) (ts : List Lexeme) (code : List StmtTree) → AreSmall set → AreTokensOf text ts
        → IsAccepted ReadsCode Statement ts code
        → (us : List Lexeme) × (trees : List StmtTree) × AreTokensOf (spliced_text text 0 (cuts set ts)) us × IsAccepted ReadsCode Statement us trees
        × (bare_code trees ≡ bare_code (with_values set code)) }
{}

/// Replaced values of 64 bits make a text at most 19 bytes longer for each name.
pub fn replaced_text_is_short()
    ensures spliced { (text : List ℕ) (set : List Setting) (ts : List Lexeme) (code : List StmtTree) → AreSmall set → AreTokensOf text ts → ReadsCode ts code
        → length (spliced_text text 0 (cuts set ts)) ≤ length text + 19 * length set }
    ensures replaced { (text : List ℕ) (conf : List ConfItem) (new : List ℕ) → AreSmall (settings_of conf) → Replaces text conf (Ok new)
        → length new ≤ length text + 19 * length conf }
{}

/// Values that code has already change nothing. Replaced values leave the code as it was exactly where each number that is set for a name
/// is the literal of the first declaration of this name. The text with the values then reads as the code did, apart from places.
pub fn values_that_are_there_change_nothing()
    ensures code { (set : List Setting) (code : List StmtTree) → AreThere set code → with_values set code ≡ code }
    ensures only { (set : List Setting) (code : List StmtTree) → with_values set code ≡ code → AreThere set code }
    ensures text { (text : List ℕ) (conf : List ConfItem) (new : List ℕ) (ts : List Lexeme) (code : List StmtTree) → AreSmall (settings_of conf)
        → Replaces text conf (Ok new) → AreTokensOf text ts → IsAccepted ReadsCode Statement ts code → AreThere (settings_of conf) code
        → (us : List Lexeme) × (trees : List StmtTree) × AreTokensOf new us × IsAccepted ReadsCode Statement us trees × (bare_code trees ≡ bare_code code) }
{}
