//! What a server sees behind its fronts, and what the links of their ports get, as laws of the definitions.
ghost use Rattle.front_history.specs.Replies.{LinksArePaid, PageLinksArePaid};
ghost use Rattle.front_history.specs.Views.{NoneIsServedThere, ServersSeeAll, ServersSeeViews, ViewsAreOne};

use http_submit::requests_are_read_one_way;

/// A server that runs behind fronts sees what happens on the wire, in order, but for the links that were opened at the fronts'
/// ports: what is sent to such a link and its close aren't seen, and the bytes that make the request of a link of the port for
/// packets whole, while the link waits for its reply, are seen as one datagram to that port, from the link's address, with the body
/// of the request. A line that the server sends to a downlink happens as a datagram that is cast there. Behind fronts without ports
/// all is seen. The server itself sends nothing to a link that is opened where datagrams come, and closes none.
pub fn servers_see_views()
    ensures views { ServersSeeViews }
    ensures all { ServersSeeAll }
    ensures unserved { NoneIsServedThere }
{}

/// A link of the port for packets waits until it is sent its reply, or ends. It is sent one reply at most, for what the last event
/// was to it: 503 for its opening, where 16 links of that port waited already; 408 for a tick 30 seconds later or more; or the status
/// of its request, for its bytes. Links that one tick settles get theirs by rising numbers, and after all those that asked for the
/// page and were settled with them. After the reply comes the close, before anything else, unless the link was gone, and no such link
/// is closed otherwise. An event comes only once no reply is due.
pub fn links_get_one_reply()
    ensures { LinksArePaid }
{}

/// A link of the port for the page is sent one reply at most, by the same rules: 503, 408, or the status of its request for the page.
/// For 200 it is sent the page, and each number of that is its count over what the server saw up to then: the view of all that
/// happened, in which each line for a downlink is a datagram. The totals are those at the end of the last round that is finished.
pub fn pages_tell_counts()
    ensures { PageLinksArePaid }
{}

/// What happened has one view: what a server sees, and what a page counts, is told by what happened alone.
pub fn views_are_one()
    ensures { ViewsAreOne }
{
    requests_are_read_one_way();
}
