//! The text of the status page.
ghost use Rattle.std.specs.Prelude.{◌≡◌, IfOk, OnOk};
ghost use Rattle.serde_json.specs.View.{members_view, view};
ghost use Rattle.aprs_base.specs.Bytes.{IsCall};
ghost use Rattle.status_page.specs.Page.{page_text};
ghost use Rattle.status_page.specs.PageValue.{page_data, with_counts, with_number, with_totals};

use crate::counts::Counts;
use aprs_base::{Call, Memory, Text, Totals};
use serde_json::{Map, Value, put};
use std::alloc::Global;

/// A number as a member of the page.
fn put_number(
    alloc: Global,
    members: &mut Map<String, Value>,
    key: &str,
    number: u64,
) -> Result<(), Memory>
    ensures { OnOk result (members_view members.new.entries ≡ with_number key.now number (members_view members.old.entries)) }
{
    Ok(put(members, alloc, key, Value::from(number))?)
}

/// The totals as members of the page.
#[tactic(auto, unfolding(crate::specs::PageValue::with_totals))]
fn put_totals(
    alloc: Global,
    members: &mut Map<String, Value>,
    totals: &Totals,
) -> Result<(), Memory>
    ensures { OnOk result (members_view members.new.entries ≡ with_totals totals.now (members_view members.old.entries)) }
{
    put_number(alloc, members, "accepted", totals.accepted)?;
    put_number(alloc, members, "duplicates", totals.duplicate)?;
    put_number(alloc, members, "queued", totals.queued)?;
    put_number(alloc, members, "refused", totals.refused)
}

/// The counts as members of the page.
#[tactic(auto, unfolding(crate::specs::PageValue::with_counts))]
fn put_counts(
    alloc: Global,
    members: &mut Map<String, Value>,
    counts: &Counts,
) -> Result<(), Memory>
    ensures { OnOk result (members_view members.new.entries ≡ with_counts counts.now (members_view members.old.entries)) }
{
    put_number(alloc, members, "casts", counts.casts)?;
    put_number(alloc, members, "datagrams", counts.datagrams)?;
    put_number(alloc, members, "joined", counts.joined)?;
    put_number(alloc, members, "opened", counts.opened)?;
    put_number(alloc, members, "received", counts.received)?;
    put_number(alloc, members, "taken", counts.taken)
}

/// A call as a text.

fn call_text(call: &Call) -> &str
    ensures text { result.now ≡ call.now }
    ensures grammar { IsCall call.now }
{
    match str::from_utf8(call.bytes()) {
        Ok(text) => text,
        Err(_) => unreachable!(),
    }
}

/// The page as a value of JSON.
#[tactic(auto, unfolding(crate::specs::PageValue::page_data))]
fn page_value(
    alloc: Global,
    counts: &Counts,
    server: &str,
    moment: u64,
    totals: &Totals,
) -> Result<Value, Memory>
    ensures { IfOk result (λ v. view v ≡ page_data counts.now server.now moment totals.now) }
{
    let mut members = Map::new(alloc);
    put_totals(alloc, &mut members, totals)?;
    put_counts(alloc, &mut members, counts)?;
    put_number(alloc, &mut members, "moment", moment)?;
    let server = String::from_str(alloc, server)?;
    put(&mut members, alloc, "server", Value::from(server))?;
    Ok(Value::Object(members))
}

impl Counts {
    /// The page of these counts: a compact object of JSON (RFC 8259), its twelve keys in byte order. The moment is in
    /// seconds since 1970.
    pub fn json(
        &self,
        alloc: Global,
        server: &Call,
        moment: u64,
        totals: &Totals,
    ) -> Result<Text, Memory>
        ensures { IfOk result (λ page. page ≡ page_text self.now server.now moment totals.now) }
    {
        let page = page_value(alloc, self, call_text(server), moment, totals)?;
        Ok(Text::new(page.to_string(alloc)?.into_bytes()))
    }
}
