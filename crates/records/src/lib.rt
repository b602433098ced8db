#![tactic(auto)]

// Records and the state that they lead to. The modules `bytes` and `writing` are public as they stand: whoever makes or reads bytes names them.
mod answers;
mod applying;
pub mod bytes;
mod checks;
mod closing;
mod fields;
mod layout;
mod ranges;
mod soundness;
mod state;
mod stepping;
pub mod writing;

pub use answers::{recent, silent, young};
pub use applying::{apply, in_week, initial, reading, value};
pub use checks::untimely;
pub use closing::{annual_result, calibration_result};
pub use soundness::sound;
pub use state::{Function, Setting, State, Tally, Waiting};
pub use stepping::{refusal, step};
