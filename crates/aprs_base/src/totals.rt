//! What a server has counted.

/// Counts since the server's start, each at most the greatest u64.
#[derive(Clone, Copy)]
pub struct Totals {
    /// Packets accepted.
    pub accepted: u64,
    /// Packets refused as duplicates.
    pub duplicate: u64,
    /// Lines, logins, filters and datagrams refused or dropped for any other reason.
    pub refused: u64,
    /// Packet lines put into the texts of links.
    pub queued: u64,
}
