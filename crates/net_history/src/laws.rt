//! What every network keeps, as laws of the definitions.
ghost use Rattle.net_history.specs.Acceptances.{AcceptancesAreApart, NoneNamesTheServer};
ghost use Rattle.net_history.specs.Constructs.{MarkedStayAway, TracedAreNamed, TracedStayAway};
ghost use Rattle.net_history.specs.DescentLaws.{NoneComesBack, PacketsDescend};
ghost use Rattle.net_history.specs.Laws.{ServersRun, StepsElsewhereChangeNothing};
ghost use Rattle.net_history.specs.Streams.{PairsBringWhatWasTaken};
ghost use Rattle.net_history.specs.Trails.{AcceptedStaysSound, NoneAcceptAgain};

/// The history of each server of a network is a run for its configuration, in which every offer was taken whole, no act is due and no stop
/// was read, and its links are numbered from 1 on as they come.
pub fn servers_of_networks_run()
    ensures run { ServersRun }
    ensures missing { StepsElsewhereChangeNothing }
{}

/// Two acceptances of one key at one server are at least its window apart, and no server accepts a line in which its call stands after the
/// construct.
pub fn servers_accept_once()
    ensures apart { AcceptancesAreApart }
    ensures unnamed { NoneNamesTheServer }
{}

/// What a link of a pair has brought, or waits to bring, is a beginning of what the link at the other end took.
pub fn pairs_bring_what_was_taken()
    ensures { PairsBringWhatWasTaken }
{}

/// What a server accepts of a sound line is sound again, and no server accepts it again that sent it on with its call after the construct.
pub fn sound_lines_stay_sound()
    ensures sound { AcceptedStaysSound }
    ensures once { NoneAcceptAgain }
{}

/// Where the code of each server is the passcode of its call, and no pair goes to a listener that only shows refused duplicates: each packet
/// that a server accepted descends from one line that a client submitted. On its way its source, destination and body stay, and each path is the
/// rule's of the one before. No server accepts it again that sent it on with its own call after the construct, whatever the moment is.
pub fn accepted_packets_descend()
    ensures descent { PacketsDescend }
    ensures once { NoneComesBack }
{}

/// In the same networks: what a server sent on with qAC or qAX and its own call behind it is never accepted at that server again, and what a
/// server sends on with qAI has its call after the construct, so that a packet which each server traces visits none twice.
pub fn constructs_keep_packets_away()
    ensures marked { MarkedStayAway }
    ensures named { TracedAreNamed }
    ensures traced { TracedStayAway }
{}
