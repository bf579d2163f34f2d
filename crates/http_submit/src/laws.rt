//! Laws of requests and replies.
ghost use Rattle.http_submit.specs.Laws.{BytesAskOnce, FirstCutIsKnown, RepliesRise};

/// The same bytes ask for one thing alone. A body is known by the first of the lines into which it is cut as a datagram.
pub fn requests_are_read_one_way()
    ensures once { BytesAskOnce }
    ensures known { FirstCutIsKnown }
{}

/// Before a wire that numbers its links in order, the links that wait and those that are owed replies stay in rising number.
pub fn replies_rise()
    ensures { RepliesRise }
{}
