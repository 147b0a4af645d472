//! Code: the text of the generated pipeline file of a number.
#![tactic(auto)]

mod error;
mod file;
mod word;

pub use error::GenError;
pub use file::generate;
pub use word::number_of;
