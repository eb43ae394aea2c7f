//! A parser of preference scripts: from tokens to trees, exact against the grammar, with the exact
//! place of the first grammar fault.
#![tactic(auto)]

mod fault;
pub mod laws;
mod script;

pub use fault::ParseFault;
pub use script::parse_script;
