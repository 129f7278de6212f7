use doc_types::TextList;
use value_lists::TextValue;

/// How a number compares with another.
#[derive(Clone, Copy, PartialEq, Eq)]
pub enum Rel {
    Eq,
    Lt,
    Le,
    Gt,
    Ge,
}

/// What a query asks of a field.
#[derive(Drop)]
pub enum Term {
    /// There is a token, and the field has each.
    Contains {
        field: TextValue,
        tokens: TextList,
    },
    /// The field, or some item of it, compares so with the number.
    Compare {
        field: TextValue,
        rel: Rel,
        number: i64,
    },
}
