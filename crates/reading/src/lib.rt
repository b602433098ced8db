#![tactic(auto)]

// The reader program: blocks come in, a line for each goes out, and then the report.
mod input;
mod lines;
mod session;
#[cfg(test)]
mod tests;

pub use session::{RunError, run};
