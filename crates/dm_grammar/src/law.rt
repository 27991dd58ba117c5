//! Laws of items and tokens, some in the words of the grammar's steps.

ghost use Rattle.std.specs.Prelude.{◌≡◌, ◌↔◌, ◌⊎◌, ℕ, List, false, true};
ghost use Rattle.dm_grammar.specs.declared.reading.Version.{Version};
ghost use Rattle.dm_grammar.specs.Grammar.{is_name_symbol};
ghost use Rattle.dm_grammar.specs.Items.{Written};
ghost use Rattle.dm_grammar.specs.Places.{GrammarPlace};
ghost use Rattle.dm_grammar.specs.Places.GrammarPlace.{Text};
ghost use Rattle.dm_grammar.specs.Spelling.{AreItems};
ghost use Rattle.dm_grammar.specs.Symbols.{is_digits, symbol_of_word};
ghost use Rattle.dm_grammar.specs.FirstVersion.{FirstItem, AreFirst, AreFirstWritten, Breaks};
ghost use Rattle.dm_grammar.specs.Versions.{is_second};
ghost use Rattle.dm_grammar.specs.Syntax.{IsGrammatical, IsSyntaxFault, Leads};
ghost use Rattle.dm_grammar.specs.Tokens.{Word, tokens};

/// A law of the definitions, with nothing to run. The tokens of a text are items exactly where steps of the
/// grammar take them all, and they lead to one place at most. The steps are those of the text's version; in
/// version 2 its tokens are those behind `@` and `2`.
pub fn items_are_what_steps_take()
    ensures good { (text : List ℕ) → IsGrammatical text ↔ ((items : List Written) × AreItems items (tokens text)) }
    ensures one_place { (v : Version) (ws : List Word) (p q : GrammarPlace) → Leads v Text ws p → Leads v Text ws q
        → p ≡ q }
{}

/// A law of the definitions, with nothing to run. The tokens of a text are items, form by form, as the grammar of
/// either version reads, or it has a Syntax fault, and never both; they are the items of one list at most, and a
/// Syntax fault stands at one line.
pub fn tokens_are_items_or_have_a_fault()
    ensures some { (text : List ℕ) → ((items : List Written) × AreItems items (tokens text))
        ⊎ ((line : ℕ) × IsSyntaxFault text line) }
    ensures apart { (text : List ℕ) (items : List Written) (line : ℕ) → AreItems items (tokens text)
        → IsSyntaxFault text line → ⊥ }
    ensures one_list { (ws : List Word) (a b : List Written) → AreItems a ws → AreItems b ws → a ≡ b }
    ensures one_line { (text : List ℕ) (m n : ℕ) → IsSyntaxFault text m → IsSyntaxFault text n → m ≡ n }
{}

/// A law of the definitions, with nothing to run. A word that isn't digits alone is a name, also where it has a
/// place of its own.
pub fn words_not_all_digits_are_names()
    ensures name { (word : List ℕ) → is_digits word ≡ false → is_name_symbol (symbol_of_word word) ≡ true }
{}

/// A law of the definitions, with nothing to run. The tokens of a text whose first two aren't `@` and `2` are items
/// exactly where they are these items by the grammar of version 1, which has no names of vendors and no
/// lists; and it has a Syntax fault at a line exactly where the first token with which no such text can begin
/// stands there, or where it is the last line of a text that could go on and isn't one yet. No text of version 1
/// begins with `@` and `2`, so each is read by its own grammar.
pub fn unmarked_texts_have_first_version_items()
    ensures items { (text : List ℕ) (items : List Written) → is_second (tokens text) ≡ false
        → AreItems items (tokens text) ↔ AreFirstWritten items (tokens text) }
    ensures fault { (text : List ℕ) (line : ℕ) → is_second (tokens text) ≡ false → IsSyntaxFault text line
        ↔ Breaks text line }
    ensures apart { (ws : List Word) (is : List FirstItem) → AreFirst is ws → is_second ws ≡ false }
{}
