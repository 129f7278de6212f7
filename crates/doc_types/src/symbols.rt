ghost use Rattle.std.specs.Prelude.{◌≡◌};
ghost use Rattle.doc_types.specs.Symbols.{pair_symbol, single_symbol};

/// Which language a token is of.
#[derive(Clone, Copy, PartialEq, Eq)]
pub enum Language {
    Selection,
    Query,
}

/// A token of signs.
#[derive(Clone, Copy, Debug, PartialEq, Eq)]
pub enum Symbol {
    Open,
    Close,
    Dot,
    Comma,
    Star,
    Bar,
    Semicolon,
    Not,
    Is,
    Equal,
    NotEqual,
    Less,
    LessEqual,
    Greater,
    GreaterEqual,
}

/// The symbol of two signs.
pub fn pair_symbol(language: Language, first: u8, second: u8) -> Option<Symbol>
    ensures { result ≡ pair_symbol language first second }
{
    match (language, first, second) {
        (Language::Selection, b'=', b'=') => Some(Symbol::Equal),
        (Language::Selection, b'!', b'=') => Some(Symbol::NotEqual),
        (_, b'<', b'=') => Some(Symbol::LessEqual),
        (_, b'>', b'=') => Some(Symbol::GreaterEqual),
        _ => None,
    }
}

/// The symbol of one sign.
pub fn single_symbol(language: Language, sign: u8) -> Option<Symbol>
    ensures { result ≡ single_symbol language sign }
{
    match (language, sign) {
        (_, b'(') => Some(Symbol::Open),
        (_, b')') => Some(Symbol::Close),
        (_, b'<') => Some(Symbol::Less),
        (_, b'>') => Some(Symbol::Greater),
        (Language::Selection, b'.') => Some(Symbol::Dot),
        (Language::Query, b',') => Some(Symbol::Comma),
        (Language::Query, b'*') => Some(Symbol::Star),
        (Language::Query, b'|') => Some(Symbol::Bar),
        (Language::Query, b';') => Some(Symbol::Semicolon),
        (Language::Query, b'!') => Some(Symbol::Not),
        (Language::Query, b'=') => Some(Symbol::Is),
        _ => None,
    }
}
