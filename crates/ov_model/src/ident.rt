//! The numbers by which packets name peers and keys.

ghost use Rattle.std.specs.Prelude.{◌≡◌, ◌≤◌, ◌<◌, ◌↔◌, IsNone, IfSome};
ghost use Rattle.ov_model.specs.Limits.{greatest_peer_id, greatest_key_id};

/// The greatest peer id: 24 bits of a P_DATA_V2 head. In a received packet it means "undefined".
pub const MOST_PEER_ID: u32 = 16777215;

/// The greatest key id: 3 bits of the first byte of a head.
pub const MOST_KEY_ID: u8 = 7;

/// The number by which a datagram names its peer, from 0 to 16777215 (OpenVPN's 24-bit peer id).
#[derive(Clone, Copy, Debug, PartialEq, Eq)]
pub struct PeerId {
    number: u32,
    pub ghost in_range: { number ≤ greatest_peer_id },
}

impl PeerId {
    ghost use Rattle.ov_model.specs.Ident.{peer_id};

    /// The id with the number `n`; `None` exactly where `n` is above 16777215.
    pub fn new(n: u32) -> Option<PeerId>
        ensures value { result ≡ peer_id n }
        ensures none { IsNone result ↔ (greatest_peer_id < n) }
        ensures some { IfSome result (λ id. id.number ≡ n) }
    {
        if n > MOST_PEER_ID {
            return None;
        }
        Some(PeerId { number: n })
    }

    /// The number.
    pub fn get(self) -> u32
        ensures value { result ≡ self.number }
        ensures range { result ≤ greatest_peer_id }
    {
        self.number
    }
}

/// The number by which a datagram names the key of its peer, from 0 to 7 (OpenVPN's 3-bit key id).
#[derive(Clone, Copy, Debug, PartialEq, Eq)]
pub struct KeyId {
    number: u8,
    pub ghost in_range: { number ≤ greatest_key_id },
}

impl KeyId {
    ghost use Rattle.ov_model.specs.Ident.{key_id};

    /// The id with the number `n`; `None` exactly where `n` is above 7.
    pub fn new(n: u8) -> Option<KeyId>
        ensures value { result ≡ key_id n }
        ensures none { IsNone result ↔ (greatest_key_id < n) }
        ensures some { IfSome result (λ id. id.number ≡ n) }
    {
        if n > MOST_KEY_ID {
            return None;
        }
        Some(KeyId { number: n })
    }

    /// The number.
    pub fn get(self) -> u8
        ensures value { result ≡ self.number }
        ensures range { result ≤ greatest_key_id }
    {
        self.number
    }
}
