//! Input lines: what a line asks for, or why it is bad.
//!
//! A line is one JSON object with exactly one verb. `specs/Tests.antt` lists what a line has to meet,
//! in the order in which the causes of a bad line come: the first test that fails gives the cause.
//! `specs/Meaning.antt` says what a line that meets them all asks for, and `laws` says it for each verb
//! in one record.
//!
//! ```text
//! {"put":"id:ns:music:n=0:a","fields":{"title":"One","year":1990}}
//! {"update":"id:ns:music:n=0:a","fields":{"year":{"increment":1}}}
//! {"put":"id:ns:music:n=0:a","fields":{"year":2},"condition":"music.year == 1","create":true}
//! {"remove":"id:ns:music:n=0:a","condition":"music.year < 1950"}
//! {"get":"id:ns:music:n=0:a","via":1}
//! {"search":"select * from music where year < 1950 | all(group(artist) each(output(count())))"}
//! {"state":"version:2 distributor:2 storage:4 storage.3.s:d","deaf":[1]}
//! {"stop":3}
//! {"start":3}
//! {"net":{"lane":0,"fates":["deliver","lose_request","lose_reply","twice",{"late":2}]}}
//! {"maintain":true}
//! {"barrier":true}
//! ```
#![tactic(auto)]

pub mod command;
mod keys;
pub mod laws;
mod operations;
mod options;
mod reading;
mod settings;
mod shape;
mod values;

pub use command::{Cause, Command, LineFault};
pub use reading::read_line;
