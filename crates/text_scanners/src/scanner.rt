ghost use Rattle.std.specs.Prelude.{◌≡◌, ℕ, List, [], ◌∷◌, ◌++◌, IfSome, IfNone};
ghost use Rattle.text_scanners.specs.Refusals.{Begins};

/// The state of a reader that takes one letter after the other.
pub trait Scanner: Sized {
    /// What a text is made of.
    type Letter: Copy;
    /// What a text says.
    type Value;

    /// Which lists of letters are texts, and what each says.
    ghost language: { List Self.Letter → Self.Value → Type 0 };

    /// This state is reached by reading these letters.
    ghost reached: { Self → List Self.Letter → Type 0 };

    /// The state after one letter more; none where no text goes on so.
    fn step(self, letter: Self::Letter) -> Option<Self>
        ensures steps { IfSome result (λ next. (letters : List Self.Letter) → reached self letters
            → reached next (letters ++ letter ∷ [])) }
        ensures goes_on { IfSome result (λ next. (letters : List Self.Letter) → reached next letters
            → Begins language letters) }
        ensures stops { IfNone result ((letters : List Self.Letter) → reached self letters
            → Begins language (letters ++ letter ∷ []) → ⊥) };

    /// What the letters that were read say, where they are a text.
    fn value(self) -> Option<Self::Value>
        ensures read { IfSome result (λ value. (letters : List Self.Letter) → reached self letters
            → language letters value) }
        ensures none { IfNone result ((letters : List Self.Letter) (value : Self.Value) → reached self letters
            → language letters value → ⊥) };
}
