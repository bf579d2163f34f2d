//! What the program writes on its standard output.
ghost use Rattle.std.specs.Prelude.{◌≡◌, IfOk, string_bytes};
ghost use Rattle.aprsc_daemon.specs.Configuring.{fault_name, word_name};
ghost use Rattle.aprsc_daemon.specs.Saying.{AfterSaying, bad_step_text, drill_name, listen_failed_text, summary_text, totals_text, trouble_text, too_large_text, unread_text, usage_text, valid_text};

use crate::configuring::Trouble;
use crate::drill::Counts;
use aprs_base::{Memory, Sink, SinkError, Totals};
use aprs_conf::{ConfFault, ConfWord};
use drill_plan::Plan;
use std::alloc::Global;

/// Writes all of `bytes`. It ends, since each turn takes a byte or fails.
pub fn write_all<S: Sink>(out: &mut S, bytes: &[u8]) -> Result<(), SinkError>
    ensures { AfterSaying (S.shown out.old) (S.shown out.new) bytes.now result }
{
    let mut done = 0;
    while done < bytes.len() {
        match out.write(&bytes[done..]) {
            Ok(0) => return Err(SinkError::Failed),
            Ok(count) => done += count,
            Err(error) => return Err(error),
        }
    }
    Ok(())
}

/// The line that says how the program is called.
pub fn usage() -> &'static [u8]
    ensures { result.now ≡ usage_text }
{
    b"usage: aprsc -c FILE [-w N] [-y] | aprsc drill SEED LINES LINKS [-w N] | aprsc net FILE\n"
}

/// What a line of the configuration does wrong.
fn fault_name(fault: ConfFault) -> &'static str
    ensures { result.now ≡ fault_name fault }
{
    match fault {
        ConfFault::OpenQuote => "open-quote",
        ConfFault::UnknownWord => "unknown-word",
        ConfFault::Repeated => "repeated",
        ConfFault::BadCount => "bad-count",
        ConfFault::BadCall => "bad-call",
        ConfFault::BadNumber => "bad-number",
        ConfFault::BadTime => "bad-time",
        ConfFault::BadKind => "bad-kind",
        ConfFault::BadAddr => "bad-addr",
        ConfFault::BadHost => "bad-host",
        ConfFault::TooMany => "too-many",
    }
}

fn word_name(word: ConfWord) -> &'static str
    ensures { result.now ≡ word_name word }
{
    match word {
        ConfWord::ServerId => "ServerId",
        ConfWord::PassCode => "PassCode",
        ConfWord::Listen => "Listen",
    }
}

fn bad_line(alloc: Global, file: &str, line: u32, fault: ConfFault) -> Result<Vec<u8>, Memory>
    ensures { IfOk result (λ t. t.items ≡ trouble_text file.now (Trouble.Line line fault)) }
{
    let name = fault_name(fault);
    Ok(format!(in alloc; "{file}: line {line}: {name}\n")?.into_bytes())
}

fn missing_word(alloc: Global, file: &str, word: ConfWord) -> Result<Vec<u8>, Memory>
    ensures { IfOk result (λ t. t.items ≡ trouble_text file.now (Trouble.Missing word)) }
{
    let name = word_name(word);
    Ok(format!(in alloc; "{file}: missing {name}\n")?.into_bytes())
}

/// The line that says what is wrong with the configuration.
pub fn trouble(alloc: Global, file: &str, trouble: Trouble) -> Result<Vec<u8>, Memory>
    ensures { IfOk result (λ t. t.items ≡ trouble_text file.now trouble) }
{
    match trouble {
        Trouble::Line(line, fault) => bad_line(alloc, file, line, fault),
        Trouble::Missing(word) => missing_word(alloc, file, word),
    }
}

/// The line that says that the configuration is valid.
pub fn valid(alloc: Global, file: &str) -> Result<Vec<u8>, Memory>
    ensures { IfOk result (λ t. t.items ≡ valid_text file.now) }
{
    Ok(format!(in alloc; "{file}: configuration is valid\n")?.into_bytes())
}

/// The line that names the first bad line of a script.
pub fn bad_step(alloc: Global, file: &str, line: u32) -> Result<Vec<u8>, Memory>
    ensures { IfOk result (λ t. t.items ≡ bad_step_text file.now line) }
{
    Ok(format!(in alloc; "{file}: line {line}: bad step\n")?.into_bytes())
}

/// The line that says that a file is too large.
pub fn too_large(alloc: Global, file: &str) -> Result<Vec<u8>, Memory>
    ensures { IfOk result (λ t. t.items ≡ too_large_text file.now) }
{
    Ok(format!(in alloc; "{file}: too large\n")?.into_bytes())
}

/// The line that says that a file can't be read.
pub fn unread(alloc: Global, file: &str) -> Result<Vec<u8>, Memory>
    ensures { IfOk result (λ t. t.items ≡ unread_text file.now) }
{
    Ok(format!(in alloc; "{file}: cannot be read\n")?.into_bytes())
}

/// The line that names a listener which failed.
pub fn listen_failed(alloc: Global, number: u16) -> Result<Vec<u8>, Memory>
    ensures { IfOk result (λ t. t.items ≡ listen_failed_text number) }
{
    Ok(format!(in alloc; "listen {number} failed\n")?.into_bytes())
}

/// Which drill.
fn drill_name(alloc: Global, plan: Plan) -> Result<String, Memory>
    ensures { IfOk result (λ t. string_bytes t ≡ drill_name plan) }
{
    let Plan { seed, lines, links } = plan;
    Ok(format!(in alloc; "drill seed {seed} lines {lines} links {links}")?)
}

/// The counts of packets and their lines.
fn totals_text(alloc: Global, totals: Totals) -> Result<String, Memory>
    ensures { IfOk result (λ t. string_bytes t ≡ totals_text totals) }
{
    let Totals {
        accepted,
        duplicate,
        refused,
        queued,
    } = totals;
    Ok(format!(in alloc;
        "accepted {accepted} duplicate {duplicate} refused {refused} queued {queued}"
    )?)
}

/// The line that says what a drill counted.
pub(crate) fn summary(alloc: Global, plan: Plan, counts: Counts) -> Result<Vec<u8>, Memory>
    ensures { IfOk result (λ t. t.items ≡ summary_text plan counts.totals counts.taken) }
{
    let name = drill_name(alloc, plan)?;
    let totals = totals_text(alloc, counts.totals)?;
    let taken = counts.taken;
    Ok(format!(in alloc; "{name} {totals} bytes {taken}\n")?.into_bytes())
}
