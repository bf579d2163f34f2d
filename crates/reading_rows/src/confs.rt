//! Configurations, read and written.

use crate::fields::no_memory;
use aprs_base::{Addr, PortKind, UplinkSpec};
use aprs_conf::{Conf, ConfError, Listen, PeerSpec, read};
use row_texts::{RowError, read_bytes, write_bytes};
use std::alloc::{AllocError, Global};
use std::fs::{self, Files};

fn addr_text(alloc: Global, addr: &Addr) -> Result<String, AllocError> {
    let [a, b, c, d] = addr.ip;
    format!(in alloc; "{a}.{b}.{c}.{d} {}", addr.port)
}

fn put_listen(alloc: Global, text: &mut String, listen: &Listen) -> Result<(), AllocError> {
    let name = write_bytes(alloc, listen.name.as_bytes())?;
    let at = addr_text(alloc, &listen.spec.at)?;
    let idle = if listen.idle { " idle" } else { "" };
    write!(
        text,
        "\n    listen {:?} {at}{idle} {name}",
        listen.spec.kind
    )
}

fn put_uplink(alloc: Global, text: &mut String, uplink: &UplinkSpec) -> Result<(), AllocError> {
    let host = write_bytes(alloc, uplink.host.as_slice())?;
    write!(text, "\n    uplink {host} {}", uplink.port)
}

fn put_peer(alloc: Global, text: &mut String, peer: &PeerSpec) -> Result<(), AllocError> {
    let call = write_bytes(alloc, peer.call.bytes())?;
    write!(text, "\n    peer {call} {}", addr_text(alloc, &peer.at)?)
}

fn put_lists(alloc: Global, text: &mut String, conf: &Conf) -> Result<(), AllocError> {
    for listen in &conf.listens {
        put_listen(alloc, text, listen)?;
    }
    if let Some(upload) = &conf.upload {
        write!(text, "\n    upload {}", addr_text(alloc, upload)?)?;
    }
    if let Some(page) = &conf.page {
        write!(text, "\n    page {}", addr_text(alloc, page)?)?;
    }
    for uplink in &conf.uplinks {
        put_uplink(alloc, text, uplink)?;
    }
    if let Some(group) = &conf.group {
        write!(text, "\n    group {}", addr_text(alloc, group)?)?;
    }
    for peer in &conf.peers {
        put_peer(alloc, text, peer)?;
    }
    Ok(())
}

fn put_limits(text: &mut String, conf: &Conf) -> Result<(), AllocError> {
    write!(text, "\n    uplink timeout {}", conf.up_timeout)?;
    write!(text, "\n    client timeout {}", conf.client_timeout)?;
    write!(text, "\n    clients {}", conf.max_clients)?;
    write!(text, "\n    window {}", conf.dupe_window)
}

pub fn conf_text(alloc: Global, conf: &Conf) -> Result<String, AllocError> {
    let server = write_bytes(alloc, conf.server.bytes())?;
    let mut text = format!(in alloc; "\n    server {server} {}", conf.code)?;
    write!(
        text,
        "\n    admin {}",
        write_bytes(alloc, conf.admin.as_bytes())?
    )?;
    write!(
        text,
        "\n    email {}",
        write_bytes(alloc, conf.email.as_bytes())?
    )?;
    put_lists(alloc, &mut text, conf)?;
    put_limits(&mut text, conf)?;
    Ok(text)
}

/// What a text says, or its first fault.
fn said_by(alloc: Global, text: &[u8]) -> Result<String, RowError> {
    match read(alloc, text) {
        Ok(conf) => Ok(conf_text(alloc, &conf)?),
        Err(ConfError::Memory) => Err(RowError::Memory(AllocError)),
        Err(fault) => Ok(format!(in alloc; "{fault}")?),
    }
}

/// What a configuration says, or its first fault.
pub fn conf(alloc: Global, field: &str) -> Result<String, RowError> {
    said_by(alloc, read_bytes(alloc, field)?.as_slice())
}

/// What the configuration of a file of the working folder says.
pub fn file<R: AllocGlobal + Files>(rt: &R, name: &str) -> Result<String, RowError> {
    let text = fs::read(rt, name).map_err(|_| RowError::Word)?;
    said_by(rt.alloc(), text.as_slice())
}

/// What the text says that is written of a configuration.
pub fn again(alloc: Global, field: &str) -> Result<String, RowError> {
    match read(alloc, read_bytes(alloc, field)?.as_slice()) {
        Ok(conf) => said_by(alloc, conf.write(alloc).map_err(no_memory)?.as_bytes()),
        Err(ConfError::Memory) => Err(RowError::Memory(AllocError)),
        Err(_) => Err(RowError::Word),
    }
}

fn put_number(text: &mut String, name: &str, number: Option<u16>) -> Result<(), AllocError> {
    match number {
        Some(number) => write!(text, "\n    {name} number {number}"),
        None => write!(text, "\n    no {name}"),
    }
}

/// The numbers of the listeners for requests by HTTP, and what the configuration says that is served.
fn served_text(
    alloc: Global,
    http: Option<u16>,
    status: Option<u16>,
    served: &Conf,
) -> Result<String, AllocError> {
    let mut text = String::new(alloc);
    put_number(&mut text, "http", http)?;
    put_number(&mut text, "status", status)?;
    write!(text, "{}", conf_text(alloc, served)?)?;
    Ok(text)
}

/// What is served of a configuration.
pub fn served(alloc: Global, field: &str) -> Result<String, RowError> {
    match read(alloc, read_bytes(alloc, field)?.as_slice()) {
        Ok(conf) => {
            let http = conf.upload_number();
            let status = conf.page_number();
            let served = conf.served(alloc).map_err(no_memory)?;
            Ok(served_text(alloc, http, status, &served)?)
        }
        Err(ConfError::Memory) => Err(RowError::Memory(AllocError)),
        Err(_) => Err(RowError::Word),
    }
}
