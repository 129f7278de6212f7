ghost use Rattle.std.specs.Prelude.{◌≡◌, List, [], ◌∷◌, ◌++◌, IfOk};
ghost use Rattle.doc_types.specs.SchemaCodes.{Types};
ghost use Rattle.doc_types.specs.Tokens.{Token};
ghost use Rattle.doc_types.specs.Reading.{token_of};
ghost use Rattle.conditions.specs.declared.reader.Stop.TheVariants as stop;
ghost use Rattle.conditions.specs.Readings.{Begins, IfRefused};

use doc_types::{Lexeme, Schema};
use std::alloc::{AllocError, AllocFailed, Global};
use thiserror::Error;
use value_lists::NoMemory;

/// Why a reader stops.
#[derive(Clone, Copy, Debug, PartialEq, Eq, Error)]
pub enum Stop {
    /// No text goes on so.
    #[error("refused")]
    Refused,
    #[error("out of memory")]
    NoMemory,
}

impl From<NoMemory> for Stop {
    ghost from_gives = { λ _ e. e ≡ stop.NoMemory };

    fn from(_error: NoMemory) -> Stop {
        Stop::NoMemory
    }
}

impl From<AllocError> for Stop {
    ghost from_gives = { λ _ e. e ≡ stop.NoMemory };

    fn from(_error: AllocError) -> Stop {
        Stop::NoMemory
    }
}

impl<T: Drop> From<AllocFailed<T>> for Stop {
    ghost from_gives = { λ _ e. e ≡ stop.NoMemory };

    fn from(_error: AllocFailed<T>) -> Stop {
        Stop::NoMemory
    }
}

/// The state of a reader that takes one token after the other.
pub trait TokenReader: Sized {
    /// What a text says.
    type Value;

    /// Which lists of tokens are texts under a schema, and what each says.
    ghost language: { Types → List Token → Self.Value → Type 0 };

    /// This state is reached by reading these tokens.
    ghost reached: { Types → Self → List Token → Type 0 };

    /// The state after one token more; refused where no text goes on so.
    fn take(self, alloc: Global, schema: &Schema, token: Lexeme<'_>) -> Result<Self, Stop>
        ensures takes { IfOk result (λ next. (tokens : List Token) → reached schema.now self tokens
            → reached schema.now next (tokens ++ token_of token.entry ∷ [])) }
        ensures begins { IfOk result (λ next. (tokens : List Token) → reached schema.now self tokens
            → Begins (language schema.now) (tokens ++ token_of token.entry ∷ [])) }
        ensures stops { IfRefused result ((tokens : List Token) → reached schema.now self tokens
            → Begins (language schema.now) (tokens ++ token_of token.entry ∷ []) → ⊥) };

    /// What the tokens that were read say; refused where they are no text.
    fn value(self, alloc: Global, schema: &Schema) -> Result<Self::Value, Stop>
        ensures read { IfOk result (λ value. (tokens : List Token) → reached schema.now self tokens
            → language schema.now tokens value) }
        ensures none { IfRefused result ((tokens : List Token) (value : Self.Value)
            → reached schema.now self tokens → language schema.now tokens value → ⊥) };
}
