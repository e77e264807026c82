//! Internet addresses and the transports that datagrams come from and go to.

ghost use Rattle.std.specs.Prelude.{◌≡◌};
ghost use Rattle.ov_base.specs.Address.{same_addr, same_transport};

/// An address of either family, its bytes in network order (RFC 791 section 2.3, RFC 4291 section 2).
#[derive(Clone, Copy, Debug, PartialEq, Eq)]
pub enum Addr {
    V4([u8; 4]),
    V6([u8; 16]),
}

impl Addr {
    /// Whether both are the same address of the same family.
    pub fn is(self, other: Addr) -> bool
        ensures { result ≡ same_addr self other }
    {
        self == other
    }
}

/// The address and the UDP or TCP port of one end of a tunnel's outer path.
#[derive(Clone, Copy, Debug, PartialEq, Eq)]
pub struct Transport {
    pub addr: Addr,
    /// The port, as a number: byte order is the adapters' business.
    pub port: u16,
}

impl Transport {
    /// Whether both have the same address and the same port.
    pub fn is(self, other: Transport) -> bool
        ensures { result ≡ same_transport self other }
    {
        self == other
    }
}
