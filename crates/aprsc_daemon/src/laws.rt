//! What follows of a run of the program, as laws of its definitions.
ghost use Rattle.aprsc_daemon.specs.Laws.{FrontsHavePorts, RunsAreSeen};

/// The server of a run saw the view of what happened: all but what links of the ports for submissions by HTTP and for the status
/// page were sent, with one datagram in the place of each whole submission. Such a link was sent one reply at most, at its time,
/// and closed; of the status page each number is its count over what the server saw up to then.
pub fn runs_are_seen()
    ensures runs { RunsAreSeen }
    ensures ports { FrontsHavePorts }
{}
