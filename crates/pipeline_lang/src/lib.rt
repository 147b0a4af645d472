//! Table: the script language, and the configuration that a pipeline file says.
//!
//! Which text spells which script: `Spells` in `specs/Grammar.antt`, over the tokens of
//! `specs/Tokens.antt`. Which scripts some text spells: `IsScript` in `specs/Spelled.antt`. Where a
//! text goes off the grammar: `script_of` in `specs/Scripts.antt`. The column of a token, by its
//! number in its statement: `token_column` in `specs/Tokens.antt`. The printed spelling: `text_of`
//! in `specs/Printing.antt`.
#![tactic(auto)]

mod config;
mod error;
mod keyword;
mod lines;
mod printing;
mod script;
mod scripts;
mod statements;
mod stop;
mod table;
mod terms;
mod tokens;

pub use config::{Body, Config, KillAt, PipeEnds, ServiceDef, Withhold};
pub use error::ParseError;
pub use lines::token_column;
pub use printing::print;
pub use script::{Compare, Expr, RawScript, Script, Statement, Term};
pub use scripts::parse;
pub use table::NameTable;
