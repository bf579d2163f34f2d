//! The fronts of the server, between it and its wire.
ghost use Rattle.std.specs.Prelude.{◌≡◌, IfOk};
ghost use Rattle.aprsc_daemon.specs.Fronts.{AreNew};

use aprs_base::{Call, Memory};
use http_submit::HttpFront;
use status_page::PageFront;
use std::alloc::Global;

/// That for the status page, and behind it that for packets by HTTP.
#[derive(Drop)]
pub(crate) struct Fronts {
    pub page: PageFront,
    pub http: HttpFront,
}

impl Fronts {
    /// Fronts for the listeners of these numbers, that of the page first.
    pub fn new(
        alloc: Global,
        page: Option<u16>,
        upload: Option<u16>,
        server: Call,
    ) -> Result<Fronts, Memory>
        ensures { IfOk result (AreNew (record { page = page; upload = upload }) server) }
    {
        Ok(Fronts {
            page: PageFront::new(alloc, page, server)?,
            http: HttpFront::new(alloc, upload)?,
        })
    }
}
