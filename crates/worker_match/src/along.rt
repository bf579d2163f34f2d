//! A link along the run of the packets that it meets.
ghost use Rattle.std.specs.Prelude.{◌≡◌, All, OnOk, true};
ghost use Rattle.worker_match.specs.Runs.{IsRunOf, suits_others};
ghost use Rattle.worker_match.specs.Seen.{came_all};
ghost use Rattle.worker_match.specs.Walk.{IsOrdered, walked};

use crate::links::LinkFeed;
use crate::offers::Offer;
use crate::runs::Run;
use aprs_base::Memory;

/// One link meets the packets, as long as it lives and isn't over, and takes the lines that it wants from their run.
pub(crate) fn walk_along(link: &mut LinkFeed, offers: &[Offer], run: &Run) -> Result<(), Memory>
    requires ordered { All IsOrdered (came_all offers.now) }
    requires run { IsRunOf (came_all offers.now) run.now }
    ensures { OnOk result (link.new ≡ walked (came_all offers.now) link.old) }
{
    let mut place = 0;
    for offer in offers {
        if !link.is_open() {
            return Ok(());
        }
        let next = place + offer.run_lines();
        link.meet_placed(offer, &run.batch, place, next)?;
        place = next;
    }
    Ok(())
}

/// A link that takes all lines that others sent takes the stretches of the run between its own packets.
pub(crate) fn take_others(link: &mut LinkFeed, offers: &[Offer], run: &Run) -> Result<(), Memory>
    requires run { IsRunOf (came_all offers.now) run.now }
    requires suits { suits_others link.old run.now ≡ true }
    ensures { OnOk result (link.new ≡ walked (came_all offers.now) link.old) }
{
    let number = link.link;
    let mut from = 0;
    let mut place = 0;
    for offer in offers {
        let next = place + offer.run_lines();
        if offer.is_from(number) {
            link.take_lines(&run.batch, from, place)?;
            from = next;
        }
        place = next;
    }
    link.take_lines(&run.batch, from, place)
}
