// The keys of the peers, and their nonce tails.

ghost use Rattle.std.specs.Prelude.{◌≡◌, ◌<◌, IfOk};
ghost use Rattle.ov_made.specs.Made as spec;

use ov_base::Memory;
use ov_gcm::GcmKey;
use ov_model::KeyBytes;
use std::alloc::Global;

/// How many peers a script makes. Each has a number from 0 on, which is its id.
pub const PEERS: u32 = 128;

/// The bytes of a key: the seed and a number, each as 8 bytes, the highest first.
fn key_bytes(seed: u32, number: u64) -> [u8; 16]
    ensures { result ≡ spec.key_bytes seed number }
{
    let mut key = [0; 16];
    key[..8].copy_from_slice(&u64::from(seed).to_be_bytes());
    key[8..].copy_from_slice(&number.to_be_bytes());
    key
}

/// What the key of peer `p` seals with.
pub fn encrypt_key(seed: u32, p: u8) -> [u8; 16]
    ensures { result ≡ spec.encrypt_key seed p }
{
    key_bytes(seed, 2 * u64::from(p))
}

/// What the key of peer `p` opens with.
pub fn decrypt_key(seed: u32, p: u8) -> [u8; 16]
    ensures { result ≡ spec.decrypt_key seed p }
{
    key_bytes(seed, 2 * u64::from(p) + 1)
}

/// The nonce tail of both directions of peer `p`'s key.
pub fn tail_bytes(p: u8) -> [u8; 8]
    ensures { result ≡ spec.tail_bytes p }
{
    u64::from(p).to_be_bytes()
}

/// What the datagrams of each peer are sealed with, ready for use, by the peer's number.
pub fn peer_keys(alloc: Global, seed: u32) -> Result<Vec<GcmKey>, Memory>
    ensures { IfOk result (λ keys. keys.items ≡ spec.peer_keys seed spec.peer_count) }
{
    let mut keys = Vec::with_capacity(alloc, PEERS as usize)?;
    for p in 0..PEERS {
        keys.push(GcmKey::new(&KeyBytes::K16(decrypt_key(seed, p as u8))))?;
    }
    Ok(keys)
}
