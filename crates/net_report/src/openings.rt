//! The links that the clients of a script opened.
ghost use Rattle.std.specs.Prelude.{◌≡◌, List, OnOk, reverse, true};
ghost use Rattle.std.specs.List.{cons_option};
ghost use Rattle.net_history.specs.declared.events.NetEvent.{NetEvent};
ghost use Rattle.net_history.specs.Steps.{is_there, network_of};
ghost use Rattle.net_schedule.specs.Running.{layout_of};
ghost use Rattle.net_schedule.specs.Standing.{StandsFor};
ghost use Rattle.net_script.specs.Running.{Opening, event_of, last_link, with_opening};

use aprs_base::{Call, Memory, copy_call};
use net_schedule::Network;
use net_script::ScriptStep;
use std::marker::Model;

/// A link of a server, and the call by which its client logged in.
#[derive(Drop)]
pub(crate) struct Opened {
    server: u16,
    call: Call,
    link: u32,
}

impl Model for Opened {
    ghost use Rattle.net_script.specs.Running.{Opening};

    ghost Value = { Opening };

    ghost view = { λ o. record { server = o.server; call = o.call; link = o.link } };
}

/// The last link that a client of that call opened, or 0, which is no link.
pub(crate) fn last_link(openings: &[Opened], server: u16, call: &Call) -> u32
    ensures { result ≡ last_link server call.now (reverse openings.now) }
{
    let mut link = 0;
    for opening in openings {
        if opening.server == server && opening.call.bytes() == call.bytes() {
            link = opening.link;
        }
    }
    link
}

/// The link that a step opens, which is there.
pub(crate) fn opened_by(network: &Network, step: &ScriptStep) -> Option<Opened>
    ensures { (steps : List NetEvent) (openings : List Opening) → StandsFor network.now steps
        → is_there (layout_of network.now) (network_of (layout_of network.now) steps) (event_of openings step.now) ≡ true
        → with_opening (network_of (layout_of network.now) steps) step.now openings ≡ cons_option result openings }
{
    match step {
        ScriptStep::Open { server, call } => Some(Opened {
            server: *server,
            call: copy_call(call),
            link: network.next_link(*server),
        }),
        _ => None,
    }
}

/// Puts a link behind the others, where there is one.
pub(crate) fn push_some(openings: &mut Vec<Opened>, opened: Option<Opened>) -> Result<(), Memory>
    ensures { OnOk result (reverse openings.new.items ≡ cons_option opened (reverse openings.old.items)) }
{
    if let Some(opened) = opened {
        openings.push(opened)?;
    }
    Ok(())
}
