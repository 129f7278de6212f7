//! Laws of tokens and of values; no function here does anything.

ghost use Rattle.std.specs.Prelude.{◌≡◌, ◌↔◌, ◌∷◌, ◌++◌, ℕ, ℤ, true, List, Some, None, option_map};
ghost use Rattle.std.specs.Ordering.{ordering_reverse};
ghost use Rattle.std.specs.declared.cmp.Ordering.TheVariants.{Less, Equal};
ghost use Rattle.doc_types.specs.declared.symbols.Language.{Language};
ghost use Rattle.doc_types.specs.declared.values.FieldValue.{FieldValue};
ghost use Rattle.std.specs.Char.{is_ascii_digit};
ghost use Rattle.doc_types.specs.Tokens.{Token, word, integer, quoted, is_name, is_quote, token_at};
ghost use Rattle.doc_types.specs.Spelling.{IsSpelled, SaysInteger, escaped};
ghost use Rattle.doc_types.specs.Fronts.{IsFront, BeginsNot};
ghost use Rattle.doc_types.specs.Values.{value_order};

/// A token is a front of its text that isn't empty, so reading goes on; a word ends where no name byte
/// follows and a number where no digit follows, so each is the longest at its place.
pub fn tokens_are_fronts()
    ensures front { (language : Language) (text rest : List ℕ) (t : Token)
        → token_at language text ≡ Some (t, rest) → IsFront text rest }
    ensures words { (language : Language) (text rest w : List ℕ)
        → token_at language text ≡ Some (word w, rest) → (text ≡ w ++ rest) × BeginsNot is_name rest }
    ensures numbers { (language : Language) (text rest : List ℕ) (z : ℤ)
        → token_at language text ≡ Some (integer z, rest) → BeginsNot is_ascii_digit rest }
{}

/// A text literal is what is spelled between its quotes: each byte as itself, or a backslash or a quote
/// behind a backslash. So a text is read again from its escaped form.
pub fn literals_are_spelled()
    ensures exact { (language : Language) (quote : ℕ) (bytes text rest : List ℕ) → is_quote quote ≡ true
        → (token_at language (quote ∷ bytes) ≡ Some (quoted text, rest)) ↔ IsSpelled quote bytes text rest }
    ensures again { (language : Language) (quote : ℕ) (text rest : List ℕ) → is_quote quote ≡ true
        → token_at language (quote ∷ (escaped text ++ quote ∷ rest)) ≡ Some (quoted text, rest) }
{}

/// An integer is the number that its digits say: it is read exactly where a text begins with its decimal
/// form, behind a `-` or not, and no digit follows.
pub fn integers_are_decimal()
    ensures { (language : Language) (text rest : List ℕ) (z : ℤ)
        → (token_at language text ≡ Some (integer z, rest))
        ↔ (SaysInteger text z rest × BeginsNot is_ascii_digit rest) }
{}

/// Numbers and texts have one order: what is alike is one value, turned round the order turns round,
/// and what is below a lower value is below a higher one.
pub fn values_are_ordered()
    ensures same { (a b : FieldValue) → value_order a b ≡ Some Equal → a ≡ b }
    ensures turned { (a b : FieldValue) → value_order b a ≡ option_map ordering_reverse (value_order a b) }
    ensures transitive { (a b c : FieldValue) → value_order a b ≡ Some Less → value_order b c ≡ Some Less
        → value_order a c ≡ Some Less }
{}
