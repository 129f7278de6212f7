//! The JSON value that a text is, where texts come one after another.
//!
//! A `ValueReader` keeps the memory that it works in from text to text. A contract says of what it answers
//! what it says of `serde_json`'s own reader: `read` of the text's bytes is the value, or none.
//!
//! ```text
//! let mut values = ValueReader::new(alloc);
//! let first = values.read(alloc, "{\"get\":\"id:ns:music::a\"}")?;
//! let second = values.read(alloc, "[1,2.5,null]")?;
//! ```
#![tactic(auto)]

pub mod lending;
pub mod line_value;
mod numbers;
pub mod read_fault;
mod tokens;
pub mod value_reader;

pub use lending::lent;
pub use line_value::LineValue;
pub use read_fault::ReadFault;
pub use value_reader::ValueReader;
