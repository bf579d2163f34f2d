//! What every script keeps, as laws of the definitions.
ghost use Rattle.net_script.specs.Laws.{ScriptsAreLaidOut, ScriptsAreWired, ScriptsKeepLimits};

/// A script has at most 16 servers, each with the call of a station and a window of 10 to 300 seconds, and at most 8 uplinks and 8 peers
/// of each. Its network is laid out as the laws of descents ask: each code is the passcode of its server's call, and each pair goes from
/// an uplink of one server to a full listener of another. No uplink and no peer is in two pairs, and two servers have at most one pair of
/// each kind.
pub fn scripts_ask_for_networks()
    ensures limits { ScriptsKeepLimits }
    ensures laid_out { ScriptsAreLaidOut }
    ensures wired { ScriptsAreWired }
{}
