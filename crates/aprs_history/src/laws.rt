//! What every run of the server keeps, as laws of the definitions.
ghost use Rattle.aprs_history.specs.Accepting.{AcceptancesAreApart, NoneNamesTheServer, PacketsComeFromLines};
ghost use Rattle.aprs_history.specs.Arriving.{LinesArriveWhole, LinksBringWhatCame, LinksSayWhatTheyBrought};
ghost use Rattle.aprs_history.specs.Casting.{SubmissionsAreCast};
ghost use Rattle.aprs_history.specs.Ending.{EventsEndInTheirRound, NoneServedIsOverfull, NoneStaysOverfull};
ghost use Rattle.aprs_history.specs.Headline.{ClosesHaveReasons, DialsAreOfUplinks, LinksEndByRules, LinksTakePrefixes, NoneHearThemselves, PeersGetSubmissions, UplinksGetSubmissions};
ghost use Rattle.aprs_history.specs.Joining.{UplinkLoginsAreRead, UplinkLoginsAreVerified};
ghost use Rattle.aprs_history.specs.MessageRule.{HeardIsLastAccepted, PromisesAreOwed};
ghost use Rattle.aprs_history.specs.Refusing.{JournalsTellEachEntry, RefusalsChangeNothing, RefusalsHaveOneLine, RefusalsReachNobody};
ghost use Rattle.aprs_history.specs.Sound.{OriginsAreStations, TextsAreLines};
ghost use Rattle.aprs_history.specs.Wanting.{DuplicatesAreShown, LinksWantWhatIsForThem, TextsHaveWhatLinksWant};

/// The bytes that each link takes are a prefix of its text, no line of its text is a packet that it sent itself, a link
/// ends only by a rule, and it is closed only where it ended by a reason that closes.
pub fn runs_keep_the_promise()
    ensures takes { LinksTakePrefixes }
    ensures others { NoneHearThemselves }
    ensures ends { LinksEndByRules }
    ensures closes { ClosesHaveReasons }
{}

/// The packet lines of a text are exactly those of the packets that its link wanted as they came, in order, until it was overfull.
/// A link wants a packet of another by what it is: a full feed all, one with a filter what this passes or the message rule asks
/// for, an uplink what was submitted here; and a port for that is shown the duplicates.
pub fn texts_have_what_links_want()
    ensures texts { TextsHaveWhatLinksWant }
    ensures wanted { LinksWantWhatIsForThem }
    ensures shown { DuplicatesAreShown }
{}

/// Where its peer or a stop ended a link, that event came in the round in which the link ended. Once a round is finished, no
/// link that lives is overfull, and in a run none that a stop ended.
pub fn links_end_in_their_round()
    ensures events { EventsEndInTheirRound }
    ensures overfull { NoneStaysOverfull }
    ensures served { NoneServedIsOverfull }
{}

/// A line that is refused changes no login and no filter, nothing of what was accepted, seen, heard and promised, and so nothing of
/// what the lines to come meet; and no text but its own link's, unless it is a duplicate that is shown.
pub fn refusals_change_nothing()
    ensures kept { RefusalsChangeNothing }
    ensures texts { RefusalsReachNobody }
{}

/// Once a round is finished, the journals have the lines of each entry, in order. A refused line has exactly one.
pub fn journals_tell_each_entry()
    ensures entries { JournalsTellEachEntry }
    ensures refused { RefusalsHaveOneLine }
{}

/// A link heard a call where a packet of that source was accepted from it, at the last one's moment. A link is owed the next
/// position of a sender exactly where a message of that sender went to it for what it heard, with no position of the sender
/// since.
pub fn messages_follow_the_rule()
    ensures heard { HeardIsLastAccepted }
    ensures owed { PromisesAreOwed }
{}

/// Other servers get what was submitted here, by a client or in a datagram of its own, and nothing that came from another
/// server. The text of an uplink has its login and such packets alone. A datagram to a peer is the line of such a packet that
/// was accepted in the last round. None but the uplinks are dialled, and the datagrams go to none but the peers.
pub fn servers_get_submissions()
    ensures uplinks { UplinksGetSubmissions }
    ensures peers { PeersGetSubmissions }
    ensures dials { DialsAreOfUplinks }
{}

/// Lines arrive whole: wherever the bytes of a text are cut, what has come of it is cut into some first lines of it, each as it
/// is, and into all of them once nothing is left.
pub fn lines_arrive_whole()
    ensures { LinesArriveWhole }
{}

/// What is said on a link are the lines of what it brought, in order, and nothing else.
pub fn links_say_what_they_brought()
    ensures { LinksSayWhatTheyBrought }
{}

/// What a link brought is a beginning of what came for it, where nothing came before it was opened.
pub fn links_bring_what_came()
    ensures { LinksBringWhatCame }
{}

/// Each accepted packet is that of a line that was said there, with the path that the q construct rule asks for, by who said it and
/// the logins of that moment.
pub fn packets_come_from_lines()
    ensures { PacketsComeFromLines }
{}

/// Two acceptances of one key are at least a window apart.
pub fn acceptances_are_apart()
    ensures { AcceptancesAreApart }
{}

/// No line is accepted in which the server stands after the construct.
pub fn none_names_the_server()
    ensures { NoneNamesTheServer }
{}

/// The line by which the server joins an uplink is a login with its call and its code. Where the code is the call's passcode, a
/// server of another call takes it for a verified login.
pub fn uplink_logins_are_good()
    ensures read { UplinkLoginsAreRead }
    ensures verified { UplinkLoginsAreVerified }
{}

/// Where the server and its peers are stations and uplinks join from addresses, whoever says a line has the name of a station.
pub fn origins_are_stations()
    ensures { OriginsAreStations }
{}

/// Where that is so, each line of each text has 1 to 510 bytes, and no line end.
pub fn texts_are_lines()
    ensures { TextsAreLines }
{}

/// In a run whose last round is finished, and in which nothing is due any more, each peer was sent the line of each packet that was
/// submitted here, once and in order.
pub fn submissions_are_cast()
    ensures { SubmissionsAreCast }
{}
