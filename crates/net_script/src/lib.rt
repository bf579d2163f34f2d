//! The reading of a network's script, with the first line that is bad; the servers that it asks for, and what it comes to.
#![tactic(auto)]

mod confs;
mod errors;
mod laws;
mod numbers;
mod reading;
mod servers;
mod steps;
mod types;
mod words;

pub use errors::ScriptError;
pub use laws::scripts_ask_for_networks;
pub use reading::read;
pub use types::{Script, ScriptServer, ScriptStep, StepLine};
