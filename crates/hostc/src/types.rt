//! What C programs pass beside numbers, and how it is read and told.

/// A port at a host: `struct host_endpoint`.
#[derive(Clone, Copy, Debug)]
#[repr(C)]
pub struct End {
    /// The address as a number, its first octet highest: 10.0.0.1 is 0x0a000001.
    pub addr: u32,
    /// The port.
    pub port: u16,
}

/// The hop for the addresses of a prefix: `struct host_route`.
#[derive(Clone, Copy, Debug)]
#[repr(C)]
pub struct HostRoute {
    /// The first address of the prefix, as a number.
    pub prefix: u32,
    /// The gateway's address, as a number; 0 where the prefix is on the link.
    pub gateway: u32,
    /// How many bits the prefix has.
    pub length: u8,
}
