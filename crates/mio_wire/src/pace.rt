//! What was handed up since the last tick, and whether another is due before the next second.
ghost use Rattle.std.specs.Prelude.{◌≡◌, ◌+◌, ◌≤◌, length, true};
ghost use Rattle.mio_wire.specs.Pacing.{begins_with_end, is_due, is_full, line_ends, rested, with_bytes, with_event, with_taken};

use memchr::memchr2;

/// So many line ends make a tick due, so that no round brings more lines than a queue holds.
const MOST_LINES: usize = 400;

/// So many bytes make a tick due, so that no round brings more than one offer takes.
const MOST_BYTES: usize = 48_000;

/// As many bytes as an offer has at most: where they were all taken, more may be waiting.
const WHOLE_OFFER: usize = 65_536;

/// What was handed up, and sent, since the last tick.
#[derive(Clone, Copy)]
pub(crate) struct Pace {
    handed: bool,
    lines: usize,
    bytes: usize,
    whole: bool,
}

impl Pace {
    pub(crate) fn rested() -> Pace
        ensures { result ≡ rested }
    {
        Pace {
            handed: false,
            lines: 0,
            bytes: 0,
            whole: false,
        }
    }

    /// Whether a tick is due at once, before anything else is handed up.
    #[tactic(auto, unfolding(crate::specs::Pacing::is_full))]
    pub(crate) fn is_full(&self) -> bool
        ensures { result ≡ is_full self.now }
    {
        self.lines >= MOST_LINES || self.bytes >= MOST_BYTES
    }

    /// Whether a tick is due where all that came is handed up.
    #[tactic(auto, unfolding(crate::specs::Pacing::is_due))]
    pub(crate) fn is_due(&self) -> bool
        ensures { result ≡ is_due self.now }
    {
        self.handed || self.whole
    }

    pub(crate) fn note_event(&mut self)
        ensures { self.new ≡ with_event self.old }
    {
        self.handed = true;
    }

    pub(crate) fn note_bytes(&mut self, bytes: &[u8])
        ensures { self.new ≡ with_bytes bytes.now self.old }
    {
        self.handed = true;
        self.lines = self.lines.saturating_add(line_ends(bytes));
        self.bytes = self.bytes.saturating_add(bytes.len());
    }

    /// A send took so many bytes.
    pub(crate) fn note_taken(&mut self, count: usize)
        ensures { self.new ≡ with_taken count self.old }
    {
        self.whole = self.whole || count >= WHOLE_OFFER;
    }
}

/// What follows the line end that `bytes` begin with: CR, LF, or CR and LF together.
fn past_end(bytes: &[u8]) -> &[u8]
    requires { begins_with_end bytes.now ≡ true }
    ensures one { 1 + line_ends result.now ≡ line_ends bytes.now }
    ensures shorter { 1 + length result.now ≤ length bytes.now }
{
    match bytes {
        [b'\r', b'\n', rest @ ..] | [_, rest @ ..] => rest,
        [] => bytes,
    }
}

/// How many line ends `bytes` have.
fn line_ends(bytes: &[u8]) -> usize
    ensures { result ≡ line_ends bytes.now }
{
    let mut ends = 0;
    let mut rest = bytes;
    while let Some(place) = memchr2(b'\r', b'\n', rest) {
        rest = past_end(&rest[place..]);
        ends += 1;
    }
    ends
}
