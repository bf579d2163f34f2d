//! Calls among which a name is looked for.
ghost use Rattle.std.specs.Prelude.{◌≡◌, ℕ, List};
ghost use Rattle.q_construct.specs.Rule.{among};

use aprs_base::Call;

/// Some calls, as those that other links have logged in with.
pub trait Calls {
    ghost calls: { Self → List (List ℕ) };

    /// Whether this call is among them.
    fn have(&self, call: &Call) -> bool
        ensures { result ≡ among call.now (calls self.now) };
}

/// Calls that are listed.
#[derive(Drop)]
pub struct Listed<'a> {
    pub calls: &'a [Call],
}

fn is_among(call: &Call, calls: &[Call]) -> bool
    ensures { result ≡ among call.now calls.now }
{
    calls.iter().any(|other| *call == *other)
}

impl<'a> Calls for Listed<'a> {
    ghost calls = { λ l. l.calls.now };

    fn have(&self, call: &Call) -> bool {
        is_among(call, self.calls)
    }
}
