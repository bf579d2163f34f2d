//! Positions in the plain and the compressed form.
#![tactic(auto)]

mod compressed;
mod either;
mod marks;
mod places;
mod plain;
mod written;

pub use compressed::read_compressed;
pub use either::read_either;
pub use marks::{Mark, find_mark};
pub use places::{is_code, is_table, place_at};
pub use plain::read_plain;
pub use written::{Angle, Written, finest};
