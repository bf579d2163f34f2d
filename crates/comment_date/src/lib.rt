//! The date of a moment, as a server's comment lines have it.
#![tactic(auto)]

ghost use Rattle.std.specs.Prelude.{◌≡◌};
ghost use Rattle.comment_date.specs.Dates.{date_at};

use httpdate::HttpDate;

/// The last second of the year 9999, in seconds since 1970.
const LAST_SECOND: u64 = 253_402_300_799;

/// The date of a moment in seconds since 1970, as `06 Nov 1994 08:49:40 GMT`. Each moment after the
/// year 9999 has the date of that year's last second.
pub fn date_at(moment: u64) -> [u8; 24]
    ensures { result ≡ date_at moment }
{
    let Ok(date) = HttpDate::from_unix_secs(moment.min(LAST_SECOND)) else {
        unreachable!()
    };
    let mut text = [0; 24];
    text.copy_from_slice(&date.to_bytes()[5..]);
    text
}
