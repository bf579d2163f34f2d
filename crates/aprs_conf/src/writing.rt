//! The writing of a configuration's text.
ghost use Rattle.std.specs.Prelude.{◌≡◌, ℕ, ◌++◌, ◌∷◌, [], List, Ok, IfOk, OnOk, not, map};
ghost use Rattle.std.specs.Fmt.{decimal};
ghost use Rattle.std.specs.List.{flat_map, list_all};
ghost use Rattle.aprs_conf.specs.Grammar.{conf_of};
ghost use Rattle.aprs_conf.specs.Words.{is_gap};
ghost use Rattle.aprs_conf.specs.Writing.{at_words, front_lines, group_lines, identity_lines, ip_text, is_bare, kind_name, limit_lines, line_text, list_lines, listen_line, peer_words, proto_name, spelled, text_of_conf, uplink_line, word_text};

use crate::types::{Conf, Listen, PeerSpec};
use crate::words::is_gap_byte;
use aprs_base::{Addr, Memory, PortKind, Text, UplinkSpec};
use itoa::Buffer;
use std::alloc::{AllocError, Global};
use std::marker::Model;

fn has_no_gap(word: &[u8]) -> bool
    ensures { result ≡ list_all (λ b. not (is_gap b)) word.now }
{
    word.iter().all(|byte| !is_gap_byte(*byte))
}

/// Whether a word may stand without quotes.
fn is_bare(word: &[u8]) -> bool
    ensures { result ≡ is_bare word.now }
{
    match word {
        [] | [b'"', ..] => false,
        _ => has_no_gap(word),
    }
}

fn kind_name(kind: PortKind) -> &'static [u8]
    ensures { result.now ≡ kind_name kind }
{
    match kind {
        PortKind::Full => b"fullfeed",
        PortKind::Igate => b"igate",
        PortKind::Only => b"clientonly",
        PortKind::Dupe => b"dupefeed",
        PortKind::Submit => b"udpsubmit",
        PortKind::Core => b"",
    }
}

/// Submissions come as datagrams; a listener of another kind that is idle was asked to take them.
fn proto_name(kind: PortKind, idle: bool) -> &'static [u8]
    ensures { result.now ≡ proto_name kind idle }
{
    if idle || kind == PortKind::Submit {
        b"udp"
    } else {
        b"tcp"
    }
}

/// The text of a configuration, as far as it is written.
#[derive(Drop)]
struct ConfText {
    text: Vec<u8>,
}

impl Model for ConfText {
    ghost use Rattle.std.specs.Prelude.{ℕ, List};

    ghost Value = { List ℕ };

    ghost view = { λ t. t.text.items };
}

impl ConfText {
    /// A word, between quotes unless it may stand without them.
    fn spelled(&mut self, word: &[u8]) -> Result<(), AllocError>
        ensures { OnOk result (self.new ≡ self.old ++ spelled word.now) }
    {
        if is_bare(word) {
            return Ok(self.text.extend_from_slice(word)?);
        }
        self.text.push(b'"')?;
        self.text.extend_from_slice(word)?;
        Ok(self.text.push(b'"')?)
    }

    /// A word and a blank, which keeps a CR that ends the word from the end of the line.
    #[tactic(auto, unfolding(crate::specs::Writing::word_text))]
    fn word(&mut self, word: &[u8]) -> Result<(), AllocError>
        ensures { OnOk result (self.new ≡ self.old ++ word_text word.now) }
    {
        self.spelled(word)?;
        Ok(self.text.push(b' ')?)
    }

    fn number(&mut self, number: u32) -> Result<(), AllocError>
        ensures { OnOk result (self.new ≡ self.old ++ word_text (decimal number)) }
    {
        self.word(Buffer::new().format(number).as_bytes())
    }

    fn octet(&mut self, octet: u8) -> Result<(), AllocError>
        ensures { OnOk result (self.new ≡ self.old ++ (decimal octet ++ 46 ∷ [])) }
    {
        self.text
            .extend_from_slice(Buffer::new().format(octet).as_bytes())?;
        Ok(self.text.push(b'.')?)
    }

    fn ip(&mut self, ip: [u8; 4]) -> Result<(), AllocError>
        ensures { OnOk result (self.new ≡ self.old ++ word_text (ip_text ip)) }
    {
        let [first, second, third, fourth] = ip;
        self.octet(first)?;
        self.octet(second)?;
        self.octet(third)?;
        self.number(u32::from(fourth))
    }

    /// An address and its port.
    fn at(&mut self, at: Addr) -> Result<(), AllocError>
        ensures { OnOk result (self.new ≡ self.old ++ flat_map word_text (at_words at)) }
    {
        self.ip(at.ip)?;
        self.number(u32::from(at.port))
    }

    /// A line of a word and a text.
    #[tactic(auto, unfolding(crate::specs::Writing::line_text))]
    fn text_line(&mut self, name: &[u8], text: &[u8]) -> Result<(), AllocError>
        ensures { OnOk result (self.new ≡ self.old ++ line_text (name.now ∷ text.now ∷ [])) }
    {
        self.word(name)?;
        self.word(text)?;
        Ok(self.text.push(b'\n')?)
    }

    /// A line of a word and a number.
    fn number_line(&mut self, name: &[u8], number: u32) -> Result<(), AllocError>
        ensures { OnOk result (self.new ≡ self.old ++ line_text (name.now ∷ decimal number ∷ [])) }
    {
        self.text_line(name, Buffer::new().format(number).as_bytes())
    }

    #[tactic(auto, unfolding(crate::specs::Writing::line_text))]
    fn listen(&mut self, listen: &Listen) -> Result<(), AllocError>
        ensures { OnOk result (self.new ≡ self.old ++ line_text (listen_line listen.now)) }
    {
        self.word(b"Listen")?;
        self.word(listen.name.as_bytes())?;
        self.word(kind_name(listen.spec.kind))?;
        self.word(proto_name(listen.spec.kind, listen.idle))?;
        self.at(listen.spec.at)?;
        Ok(self.text.push(b'\n')?)
    }

    fn listens(&mut self, listens: &[Listen]) -> Result<(), AllocError>
        ensures { OnOk result (self.new ≡ self.old ++ flat_map line_text (map listen_line listens.now)) }
    {
        for listen in listens {
            self.listen(listen)?;
        }
        Ok(())
    }

    /// The line of this word, where there is an address.
    #[tactic(auto, unfolding(crate::specs::Writing::line_text))]
    fn front(&mut self, word: &[u8], at: Option<Addr>) -> Result<(), AllocError>
        ensures { OnOk result (self.new ≡ self.old ++ flat_map line_text (front_lines word.now at)) }
    {
        let Some(at) = at else {
            return Ok(());
        };
        self.word(word)?;
        self.at(at)?;
        Ok(self.text.push(b'\n')?)
    }

    /// A host and its port.
    fn host(&mut self, uplink: &UplinkSpec) -> Result<(), AllocError>
        ensures { OnOk result (self.new ≡ self.old ++ flat_map word_text (uplink.now.host ∷ decimal uplink.now.port ∷ [])) }
    {
        self.word(uplink.host.as_slice())?;
        self.number(u32::from(uplink.port))
    }

    #[tactic(auto, unfolding(crate::specs::Writing::line_text, crate::specs::Writing::word_text))]
    fn uplink(&mut self, uplink: &UplinkSpec) -> Result<(), AllocError>
        ensures { OnOk result (self.new ≡ self.old ++ line_text (uplink_line uplink.now)) }
    {
        self.text.extend_from_slice(b"Uplink uplink full tcp ")?;
        self.host(uplink)?;
        Ok(self.text.push(b'\n')?)
    }

    fn uplinks(&mut self, uplinks: &[UplinkSpec]) -> Result<(), AllocError>
        ensures { OnOk result (self.new ≡ self.old ++ flat_map line_text (map uplink_line uplinks.now)) }
    {
        for uplink in uplinks {
            self.uplink(uplink)?;
        }
        Ok(())
    }

    fn peer(&mut self, peer: &PeerSpec) -> Result<(), AllocError>
        ensures { OnOk result (self.new ≡ self.old ++ flat_map word_text (peer_words peer.now)) }
    {
        self.word(peer.call.bytes())?;
        self.at(peer.at)
    }

    fn peers(&mut self, peers: &[PeerSpec]) -> Result<(), AllocError>
        ensures { OnOk result (self.new ≡ self.old ++ flat_map word_text (flat_map peer_words peers.now)) }
    {
        for peer in peers {
            self.peer(peer)?;
        }
        Ok(())
    }

    /// The line of a group, where there is one.
    #[tactic(auto, unfolding(crate::specs::Writing::line_text, crate::specs::Writing::word_text))]
    fn group(&mut self, group: Option<Addr>, peers: &[PeerSpec]) -> Result<(), AllocError>
        ensures { OnOk result (self.new ≡ self.old ++ flat_map line_text (group_lines group peers.now)) }
    {
        let Some(at) = group else {
            return Ok(());
        };
        self.text.extend_from_slice(b"PeerGroup peers udp ")?;
        self.at(at)?;
        self.peers(peers)?;
        Ok(self.text.push(b'\n')?)
    }

    /// Whose server it is.
    fn identity(&mut self, conf: &Conf) -> Result<(), AllocError>
        ensures { OnOk result (self.new ≡ self.old ++ flat_map line_text (identity_lines conf.now)) }
    {
        self.text_line(b"ServerId", conf.server.bytes())?;
        self.number_line(b"PassCode", conf.code)?;
        self.text_line(b"MyAdmin", conf.admin.as_bytes())?;
        self.text_line(b"MyEmail", conf.email.as_bytes())
    }

    /// The times in seconds and the number of clients, also where they are the usual ones.
    fn limits(&mut self, conf: &Conf) -> Result<(), AllocError>
        ensures { OnOk result (self.new ≡ self.old ++ flat_map line_text (limit_lines conf.now)) }
    {
        self.number_line(b"UpstreamTimeout", conf.up_timeout)?;
        self.number_line(b"ClientTimeout", conf.client_timeout)?;
        self.number_line(b"MaxClients", conf.max_clients)?;
        self.number_line(b"DupeWindow", conf.dupe_window)
    }

    fn lists(&mut self, conf: &Conf) -> Result<(), AllocError>
        ensures { OnOk result (self.new ≡ self.old ++ flat_map line_text (list_lines conf.now)) }
    {
        self.listens(conf.listens.as_slice())?;
        self.front(b"HTTPUpload", conf.upload)?;
        self.front(b"HTTPStatus", conf.page)?;
        self.uplinks(conf.uplinks.as_slice())?;
        self.group(conf.group, conf.peers.as_slice())
    }

    fn conf(&mut self, conf: &Conf) -> Result<(), AllocError>
        ensures { OnOk result (self.new ≡ self.old ++ text_of_conf conf.now) }
    {
        self.identity(conf)?;
        self.limits(conf)?;
        self.lists(conf)
    }
}

impl Conf {
    /// A text that reads as this value, where some text does. Fails only where memory is wanting.
    pub fn write(&self, alloc: Global) -> Result<Text, Memory>
        ensures text { IfOk result (λ written. written ≡ text_of_conf self.now) }
        ensures again { (text : List ℕ) → conf_of text ≡ Ok self.now → IfOk result (λ written. conf_of written ≡ Ok self.now) }
    {
        let mut out = ConfText {
            text: Vec::new(alloc),
        };
        out.conf(self)?;
        Ok(Text::new(out.text))
    }
}
