//! The classes of a body, a bit each.

pub const POSITION: u16 = 1;

pub const OBJECT: u16 = 2;

pub const ITEM: u16 = 4;

pub const MESSAGE: u16 = 8;

pub const QUERY: u16 = 16;

pub const STATUS: u16 = 32;

pub const TELEMETRY: u16 = 64;

pub const USER_DEFINED: u16 = 128;
/// Of the National Weather Service.
pub const NWS: u16 = 256;

pub const WEATHER: u16 = 512;
