//! Laws of the tokens of a text.
ghost use Rattle.promql_lex.specs.Laws.{AreLaidOut, HasUnit, IsSpelling};
ghost use Rattle.promql_lex.specs.Numbers.{counts_in_hexadecimal, has_units};
ghost use Rattle.promql_lex.specs.Tokens.{is_bad, tokens_of};
ghost use Rattle.promql_lex.specs.declared.token.Token.{Token};
ghost use Rattle.std.specs.Prelude.{◌≡◌, ◌↔◌, ◌++◌, ◌-◌, ℕ, List, [], ◌∷◌, drop, take, IsTrue};

/// A law, with nothing to run: the spans of a text's tokens rise, and what stands before each, between them and behind the
/// last one is blanks and comments alone, save behind a refused spelling.
pub fn spans_lie_in_order()
    ensures { (text : List ℕ) → AreLaidOut 0 text (tokens_of text) }
{}

/// A law, with nothing to run: a refused spelling is the last token of its text, so there is at most one.
pub fn refused_spellings_are_last()
    ensures { (text : List ℕ) (front : List Token) (t : Token) (back : List Token) → tokens_of text ≡ front ++ t ∷ back → IsTrue (is_bad t.kind) → back ≡ [] }
{}

/// A law, with nothing to run: the kind of each token, each refusal among them, is that of its span's spelling.
pub fn kinds_are_of_spellings()
    ensures { (text : List ℕ) (front : List Token) (t : Token) (back : List Token) → tokens_of text ≡ front ++ t ∷ back → IsSpelling t.at (take (t.end - t.at) (drop t.at text)) t.kind }
{}

/// A law, with nothing to run: a run that is neither number nor duration is BadDuration where in it a unit's letter stands right
/// behind the end of a count, and BadNumber elsewhere.
pub fn bad_durations_have_units()
    ensures { (run : List ℕ) → IsTrue (has_units run) ↔ HasUnit (counts_in_hexadecimal run) run }
{}
