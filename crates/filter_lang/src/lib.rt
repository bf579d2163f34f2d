//! The filter language of APRS-IS: its terms, their reading from a text, and their canonical text.
#![tactic(auto)]

mod errors;
mod kinds;
mod names;
mod numbers;
mod parts;
mod reading;
mod sets;
mod terms;
mod writing;

pub use errors::FilterError;
pub use reading::read;
pub use terms::{FilterSet, Marks, Name, Names, Term, What};
