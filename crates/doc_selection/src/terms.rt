use value_lists::{Listed, TextValue};

/// How a field is compared.
#[derive(Clone, Copy, PartialEq, Eq)]
pub enum Comparison {
    Equal,
    NotEqual,
    Less,
    LessEqual,
    Greater,
    GreaterEqual,
}

/// What a field is compared with.
#[derive(Drop)]
pub enum Literal {
    Integer(i64),
    /// The bytes of a text.
    Text(Listed<u8>),
    /// No value.
    Null,
}

/// What a selection asks of a document.
#[derive(Drop)]
pub enum Term {
    /// It is of this type.
    OfType(TextValue),
    /// It is of this type, and its field compares so.
    Compare {
        type_name: TextValue,
        field: TextValue,
        comparison: Comparison,
        literal: Literal,
    },
}
