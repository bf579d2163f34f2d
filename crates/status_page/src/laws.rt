//! Laws of counts, requests and replies.
ghost use Rattle.status_page.specs.Laws.{BytesAskOnce, CountsGoOn, CountsInAnyOrder, PagesRise};

/// What is counted piece by piece is counted as a whole, in whichever order it happened.
pub fn counts_add_up()
    ensures pieces { CountsGoOn }
    ensures order { CountsInAnyOrder }
{}

/// The same bytes ask for one thing alone.
pub fn requests_are_read_one_way()
    ensures { BytesAskOnce }
{}

/// Before a wire that numbers its links in order, the links that wait for the page and those that are owed replies stay in
/// rising number.
pub fn pages_rise()
    ensures { PagesRise }
{}
