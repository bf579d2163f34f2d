//! The configuration that is served: in it requests by HTTP have listeners like the others.
ghost use Rattle.std.specs.Prelude.{◌≡◌, ◌≤◌, ◌++◌, IfOk, OnOk, length};
ghost use Rattle.aprs_conf.specs.Served.{front_listens, numbered, page_number, served_conf, upload_number};
ghost use Rattle.aprs_conf.specs.Sound.{IsSound};

use crate::types::{Conf, Listen};
use aprs_base::{Addr, ListenSpec, Memory, PortKind, Text};
use std::alloc::Global;

/// How many listeners have a number: those that aren't idle.
pub fn count_numbered(listens: &[Listen]) -> usize
    ensures count { result ≡ length (numbered listens.now) }
    ensures few { result ≤ length listens.now }
{
    let mut count = 0;
    for listen in listens {
        if !listen.idle {
            count += 1;
        }
    }
    count
}

/// Adds the listener of this name, where it has an address.
fn push_front(
    alloc: Global,
    listens: &mut Vec<Listen>,
    name: &[u8],
    at: Option<Addr>,
) -> Result<(), Memory>
    ensures { OnOk result (listens.new.items ≡ listens.old.items ++ front_listens name.now at) }
{
    let Some(at) = at else {
        return Ok(());
    };
    listens.push(Listen {
        name: Text::copied(alloc, name)?,
        spec: ListenSpec {
            kind: PortKind::Submit,
            at,
        },
        idle: false,
    })?;
    Ok(())
}

impl Conf {
    /// The configuration that is served: the listeners for submissions by HTTP and of the status page, where there are such, are
    /// the last of the listens, by the names `http` and `status`. Fails only where memory is wanting.
    pub fn served(self, alloc: Global) -> Result<Conf, Memory>
        ensures value { IfOk result (λ conf. conf ≡ served_conf self) }
        ensures sound { IsSound self → IfOk result IsSound }
    {
        let mut conf = self;
        push_front(alloc, &mut conf.listens, b"http", conf.upload)?;
        push_front(alloc, &mut conf.listens, b"status", conf.page)?;
        conf.upload = None;
        conf.page = None;
        Ok(conf)
    }

    /// The number of the listener for submissions by HTTP in the configuration that is served, 0 to 16: how many others have a
    /// number. None where there is no such listener.
    pub fn upload_number(&self) -> Option<u16>
        requires few { length self.now.listens ≤ 16 }
        ensures { result ≡ upload_number self.now }
    {
        match self.upload {
            Some(_) => Some(count_numbered(self.listens.as_slice()) as u16),
            None => None,
        }
    }

    /// The number of the status page's listener in the configuration that is served, 0 to 17: how many listeners of lines and for
    /// submissions have a number. None where there is no such listener.
    pub fn page_number(&self) -> Option<u16>
        requires few { length self.now.listens ≤ 16 }
        ensures { result ≡ page_number self.now }
    {
        self.page?;
        let lines = count_numbered(self.listens.as_slice()) as u16;
        match self.upload {
            Some(_) => Some(lines + 1),
            None => Some(lines),
        }
    }
}
