//! What the walk of links comes to, as laws of its definition.
ghost use Rattle.worker_match.specs.WalkLaws.{DeadStay, DupesAreForDupeFeeds, FullAreOver, FullByText, NoneWantTheirOwn, OthersAreNotTaken, OthersStay, OthersTellNothing, OverStay, PositionsAreSeen, TextsAreTaken, WantedAreTaken};

/// A link that doesn't live, or is over, is changed by nothing, and no link by what is for others. A line for it is put into
/// its queue as long as there is room; then it is over. None wants what came from
/// itself, and refused duplicates are for those that are fed such. Exactly what a link wants is put into its queue, as long
/// as there is room; then the link is over. An accepted position tells of its source, whether it is wanted or not, and
/// nothing else tells of a place.
pub fn links_take_what_they_want()
    ensures dead { DeadStay }
    ensures over { OverStay }
    ensures others { OthersStay }
    ensures texts { TextsAreTaken }
    ensures full_by_text { FullByText }
    ensures own { NoneWantTheirOwn }
    ensures dupes { DupesAreForDupeFeeds }
    ensures wanted { WantedAreTaken }
    ensures full { FullAreOver }
    ensures unwanted { OthersAreNotTaken }
    ensures places { PositionsAreSeen }
    ensures nothing { OthersTellNothing }
{}
