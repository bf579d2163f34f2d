//! What each part of the links passes through.

/// Sees where the walk of a part begins and where it ends, on the thread that walks it. It changes nothing of what is walked.
pub trait Gate {
    /// The part of that number, counted from 0, is about to be walked.
    fn enter(&self, part: u32);

    /// It was walked.
    fn leave(&self, part: u32);
}

/// A gate that holds up nothing.
pub struct OpenGate;

impl Gate for OpenGate {
    fn enter(&self, _part: u32) {}

    fn leave(&self, _part: u32) {}
}
