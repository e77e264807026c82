//! From the attributes of a key as they were given to the command key-new.

ghost use Rattle.std.specs.Prelude.{◌≡◌, option_and_then};
ghost use Rattle.ov_model.specs.Ident.{key_id as key_id_of, peer_id as peer_id_of};
ghost use Rattle.ov_model.specs.Checked as spec;
ghost use Rattle.ov_model.specs.declared.netlink.NlOp.TheVariants as op;

use ov_base::Octets;
use ov_model::{
    Cipher, Command, Errno, KeyBytes, KeyConf, KeyDir, KeyId, NlKeyConf, NlKeyDir, NlOp, PeerId,
};

/// The key of AES with these bytes: there are 16, 24 or 32 of them (FIPS 197, section 5).
fn key_of(bytes: &[u8]) -> Option<KeyBytes>
    ensures { result ≡ spec.key_bytes bytes.now }
{
    if let Some(key) = bytes.as_array::<16>() {
        return Some(KeyBytes::K16(*key));
    }
    if let Some(key) = bytes.as_array::<24>() {
        return Some(KeyBytes::K24(*key));
    }
    if let Some(key) = bytes.as_array::<32>() {
        return Some(KeyBytes::K32(*key));
    }
    None
}

/// The key that is given, where it is one.
fn key_bytes(given: &Option<Octets>) -> Option<KeyBytes>
    ensures { result ≡ option_and_then spec.key_bytes given.now }
{
    match given {
        None => None,
        Some(octets) => key_of(octets.as_slice()),
    }
}

/// The nonce tail with these bytes: there are 8 of them.
fn tail_of(bytes: &[u8]) -> Option<[u8; 8]>
    ensures { result ≡ spec.tail_bytes bytes.now }
{
    match bytes.as_array::<8>() {
        None => None,
        Some(tail) => Some(*tail),
    }
}

/// The nonce tail that is given, where it is one.
fn tail_bytes(given: &Option<Octets>) -> Option<[u8; 8]>
    ensures { result ≡ option_and_then spec.tail_bytes given.now }
{
    match given {
        None => None,
        Some(octets) => tail_of(octets.as_slice()),
    }
}

/// One direction of a key, where both its parts are given and in range.
fn dir_of(dir: &NlKeyDir) -> Option<KeyDir>
    ensures { result ≡ spec.key_dir dir.now }
{
    let key = key_bytes(&dir.cipher_key)?;
    let tail = tail_bytes(&dir.nonce_tail)?;
    Some(KeyDir { key, tail })
}

/// The direction that is given, where it is one.
fn key_dir(given: &Option<NlKeyDir>) -> Option<KeyDir>
    ensures { result ≡ option_and_then spec.key_dir given.now }
{
    match given {
        None => None,
        Some(dir) => dir_of(dir),
    }
}

/// The peer id that is given, where it is in range.
fn peer_id(given: Option<u32>) -> Option<PeerId>
    ensures { result ≡ option_and_then peer_id_of given }
{
    given.and_then(PeerId::new)
}

/// The key id with this number, where it is in range.
fn id_of(number: u32) -> Option<KeyId>
    ensures { result ≡ key_id_of number }
{
    match u8::try_from(number) {
        Ok(small) => KeyId::new(small),
        Err(_) => None,
    }
}

/// The key id that is given, where it is in range.
fn key_id(given: Option<u32>) -> Option<KeyId>
    ensures { result ≡ option_and_then key_id_of given }
{
    match given {
        None => None,
        Some(number) => id_of(number),
    }
}

/// The attributes of key-new, where all are given and in range.
fn conf_of(conf: &NlKeyConf) -> Option<KeyConf>
    ensures { result ≡ spec.key_conf conf.now }
{
    let peer = peer_id(conf.peer_id)?;
    let slot = conf.slot?;
    let key_id = key_id(conf.key_id)?;
    let encrypt = key_dir(&conf.encrypt)?;
    let decrypt = key_dir(&conf.decrypt)?;
    Some(KeyConf {
        peer,
        slot,
        key_id,
        encrypt,
        decrypt,
    })
}

/// The command of a key-new with a cipher: AES-GCM is the one that is taken.
fn with_cipher(cipher: Cipher, conf: KeyConf) -> Result<Command, Errno>
    ensures { result ≡ spec.with_cipher (Some cipher) (Some conf) }
{
    match cipher {
        Cipher::AesGcm => Ok(Command::KeyNew(conf)),
        Cipher::NoCipher | Cipher::ChaCha20Poly1305 => Err(Errno::NotSupported),
    }
}

/// The command of key-new: `Errno::Invalid` where an attribute is missing or out of range, and else
/// `Errno::NotSupported` where the cipher isn't AES-GCM.
fn key_new(conf: &NlKeyConf) -> Result<Command, Errno>
    ensures { result ≡ spec.checked_keyconf op.KeyNew conf.now }
{
    let cipher = conf.cipher.ok_or(Errno::Invalid)?;
    let attributes = conf_of(conf).ok_or(Errno::Invalid)?;
    with_cipher(cipher, attributes)
}

/// The command of key-get.
fn key_get(conf: &NlKeyConf) -> Result<Command, Errno>
    ensures { result ≡ spec.checked_keyconf op.KeyGet conf.now }
{
    let peer = peer_id(conf.peer_id).ok_or(Errno::Invalid)?;
    let slot = conf.slot.ok_or(Errno::Invalid)?;
    Ok(Command::KeyGet(peer, slot))
}

/// The command of key-swap.
fn key_swap(conf: &NlKeyConf) -> Result<Command, Errno>
    ensures { result ≡ spec.checked_keyconf op.KeySwap conf.now }
{
    let peer = peer_id(conf.peer_id).ok_or(Errno::Invalid)?;
    Ok(Command::KeySwap(peer))
}

/// The command of key-del.
fn key_del(conf: &NlKeyConf) -> Result<Command, Errno>
    ensures { result ≡ spec.checked_keyconf op.KeyDel conf.now }
{
    let peer = peer_id(conf.peer_id).ok_or(Errno::Invalid)?;
    let slot = conf.slot.ok_or(Errno::Invalid)?;
    Ok(Command::KeyDel(peer, slot))
}

/// The command of an operation on keys: `Errno::Invalid` where an attribute that it needs is missing or out
/// of range, and of key-new else `Errno::NotSupported` where the cipher isn't AES-GCM.
pub fn key_command(operation: NlOp, given: &Option<NlKeyConf>) -> Result<Command, Errno>
    ensures { result ≡ spec.checked_key operation given.now }
{
    let conf = given.as_ref().ok_or(Errno::Invalid)?;
    match operation {
        NlOp::KeyNew => key_new(conf),
        NlOp::KeyGet => key_get(conf),
        NlOp::KeySwap => key_swap(conf),
        NlOp::KeyDel => key_del(conf),
        _ => Err(Errno::Invalid),
    }
}

#[cfg(test)]
mod tests {
    use super::*;
    use crate::call_of;
    use ov_model::{NlMessage, Slot};
    use std::alloc::Global;
    use std::process::Abort;

    /// So many bytes, each of them the same.
    fn filled(rt: &impl Abort, alloc: Global, byte: u8, length: usize) -> Octets {
        let Ok(bytes) = vec![in alloc; byte; length] else {
            panic!(rt; "no memory");
        };
        Octets::of_vec(bytes)
    }

    /// A direction with a key of so many bytes, each a 7, and a tail of so many, each a 9.
    fn dir(rt: &impl Abort, alloc: Global, key: usize, tail: usize) -> NlKeyDir {
        NlKeyDir {
            cipher_key: Some(filled(rt, alloc, 7, key)),
            nonce_tail: Some(filled(rt, alloc, 9, tail)),
        }
    }

    /// A key-new of AES-GCM that has all that it needs, with these directions.
    fn whole(encrypt: Option<NlKeyDir>, decrypt: Option<NlKeyDir>) -> NlKeyConf {
        NlKeyConf {
            peer_id: Some(16777215),
            slot: Some(Slot::Primary),
            key_id: Some(7),
            cipher: Some(Cipher::AesGcm),
            encrypt,
            decrypt,
        }
    }

    /// A key-new that is taken.
    fn good(rt: &impl Abort, alloc: Global) -> NlKeyConf {
        whole(Some(dir(rt, alloc, 16, 8)), Some(dir(rt, alloc, 16, 8)))
    }

    /// What the attributes are answered.
    fn answer(keyconf: Option<NlKeyConf>) -> Result<Command, Errno> {
        call_of(&NlMessage {
            op: NlOp::KeyNew,
            ifindex: None,
            peer: None,
            keyconf,
        })
    }

    /// A key-new is refused so.
    fn refuses(rt: &impl Abort, conf: NlKeyConf, errno: Errno) {
        assert_eq!(rt; answer(Some(conf)), Err(errno));
    }

    /// A key-new lacks something, or has it out of range.
    fn lacks(rt: &impl Abort, conf: NlKeyConf) {
        refuses(rt, conf, Errno::Invalid);
    }

    /// The key of a key-new that is taken.
    fn taken(rt: &impl Abort, conf: NlKeyConf) -> KeyConf {
        let Ok(Command::KeyNew(key)) = answer(Some(conf)) else {
            panic!(rt; "refused");
        };
        key
    }

    #[test]
    fn a_key_with_all_that_it_needs_is_a_command(rt: HostRuntime) {
        let encrypt = dir(&rt, rt.alloc(), 16, 8);
        let decrypt = dir(&rt, rt.alloc(), 32, 8);
        let key = taken(&rt, whole(Some(encrypt), Some(decrypt)));
        assert_eq!(rt; key.peer.get(), 16777215);
        assert_eq!(rt; key.key_id.get(), 7);
        assert_eq!(rt; key.slot, Slot::Primary);
        assert_eq!(rt; key.encrypt.key, KeyBytes::K16([7; 16]));
        assert_eq!(rt; key.decrypt.key, KeyBytes::K32([7; 32]));
        assert_eq!(rt; key.encrypt.tail, [9; 8]);
    }

    /// A key-new with a key and a tail of these lengths, in bytes, to encrypt with.
    fn encrypting(rt: &impl Abort, alloc: Global, key: usize, tail: usize) -> NlKeyConf {
        whole(Some(dir(rt, alloc, key, tail)), Some(dir(rt, alloc, 24, 8)))
    }

    /// A key-new with a key and a tail of these lengths, in bytes, to decrypt with.
    fn decrypting(rt: &impl Abort, alloc: Global, key: usize, tail: usize) -> NlKeyConf {
        whole(Some(dir(rt, alloc, 24, 8)), Some(dir(rt, alloc, key, tail)))
    }

    /// A key of this length with a tail of 8 bytes is taken in both directions.
    fn fits(rt: &impl Abort, alloc: Global, key: usize) {
        assert!(rt; answer(Some(encrypting(rt, alloc, key, 8))).is_ok());
        assert!(rt; answer(Some(decrypting(rt, alloc, key, 8))).is_ok());
    }

    /// A key and a tail of these lengths are refused in both directions.
    fn misfits(rt: &impl Abort, alloc: Global, key: usize, tail: usize) {
        lacks(rt, encrypting(rt, alloc, key, tail));
        lacks(rt, decrypting(rt, alloc, key, tail));
    }

    #[test]
    fn keys_and_tails_have_their_lengths(rt: HostRuntime) {
        misfits(&rt, rt.alloc(), 15, 8);
        fits(&rt, rt.alloc(), 16);
        misfits(&rt, rt.alloc(), 17, 8);
        misfits(&rt, rt.alloc(), 23, 8);
        fits(&rt, rt.alloc(), 24);
        misfits(&rt, rt.alloc(), 25, 8);
        misfits(&rt, rt.alloc(), 31, 8);
        fits(&rt, rt.alloc(), 32);
        misfits(&rt, rt.alloc(), 33, 8);
        misfits(&rt, rt.alloc(), 0, 8);
        misfits(&rt, rt.alloc(), 16, 7);
        misfits(&rt, rt.alloc(), 16, 9);
        misfits(&rt, rt.alloc(), 16, 0);
    }

    /// A key-new with another peer id.
    fn with_peer_id(rt: &impl Abort, alloc: Global, peer_id: Option<u32>) -> NlKeyConf {
        NlKeyConf {
            peer_id,
            ..good(rt, alloc)
        }
    }

    /// A key-new with another key id.
    fn with_key_id(rt: &impl Abort, alloc: Global, key_id: Option<u32>) -> NlKeyConf {
        NlKeyConf {
            key_id,
            ..good(rt, alloc)
        }
    }

    /// A key-new without a slot.
    fn slotless(rt: &impl Abort, alloc: Global) -> NlKeyConf {
        NlKeyConf {
            slot: None,
            ..good(rt, alloc)
        }
    }

    /// A key-new without a cipher.
    fn without_cipher(rt: &impl Abort, alloc: Global) -> NlKeyConf {
        NlKeyConf {
            cipher: None,
            ..good(rt, alloc)
        }
    }

    /// A key-new of a cipher, with keys of these lengths.
    fn of_cipher(
        rt: &impl Abort,
        alloc: Global,
        cipher: Cipher,
        encrypt: usize,
        decrypt: usize,
    ) -> NlKeyConf {
        NlKeyConf {
            peer_id: Some(16777215),
            slot: Some(Slot::Primary),
            key_id: Some(7),
            cipher: Some(cipher),
            encrypt: Some(dir(rt, alloc, encrypt, 8)),
            decrypt: Some(dir(rt, alloc, decrypt, 8)),
        }
    }

    #[test]
    fn what_is_missing_or_out_of_range_is_refused(rt: HostRuntime) {
        lacks(&rt, with_peer_id(&rt, rt.alloc(), None));
        lacks(&rt, with_peer_id(&rt, rt.alloc(), Some(16777216)));
        lacks(&rt, slotless(&rt, rt.alloc()));
        lacks(&rt, with_key_id(&rt, rt.alloc(), None));
        lacks(&rt, with_key_id(&rt, rt.alloc(), Some(8)));
        lacks(&rt, with_key_id(&rt, rt.alloc(), Some(256)));
        lacks(&rt, without_cipher(&rt, rt.alloc()));
        lacks(&rt, whole(None, Some(dir(&rt, rt.alloc(), 16, 8))));
        lacks(&rt, whole(Some(dir(&rt, rt.alloc(), 16, 8)), None));
        // What is missing comes before the cipher.
        lacks(&rt, of_cipher(&rt, rt.alloc(), Cipher::NoCipher, 17, 16));
        assert_eq!(rt; answer(None), Err(Errno::Invalid));
    }

    #[test]
    fn other_ciphers_are_not_supported(rt: HostRuntime) {
        let none = of_cipher(&rt, rt.alloc(), Cipher::NoCipher, 32, 16);
        refuses(&rt, none, Errno::NotSupported);
        let other = of_cipher(&rt, rt.alloc(), Cipher::ChaCha20Poly1305, 32, 16);
        refuses(&rt, other, Errno::NotSupported);
    }

    /// A direction is printed so.
    fn prints(rt: &impl Abort, alloc: Global, dir: &NlKeyDir, wanted: &str) {
        let Ok(text) = format!(in alloc; "{dir:?}") else {
            panic!(rt; "no memory");
        };
        assert!(rt; text.as_str() == wanted);
    }

    /// A direction that may be missing is printed so.
    fn prints_any(rt: &impl Abort, alloc: Global, dir: &Option<NlKeyDir>, wanted: &str) {
        let Ok(text) = format!(in alloc; "{dir:?}") else {
            panic!(rt; "no memory");
        };
        assert!(rt; text.as_str() == wanted);
    }

    #[test]
    fn no_byte_of_a_direction_is_printed(rt: HostRuntime) {
        let both = Some(dir(&rt, rt.alloc(), 16, 8));
        let lengths = "Some(NlKeyDir(bytes of the key: Some(16), of the tail: Some(8)))";
        prints_any(&rt, rt.alloc(), &both, lengths);
        let none = NlKeyDir {
            cipher_key: None,
            nonce_tail: None,
        };
        let nothing = "NlKeyDir(bytes of the key: None, of the tail: None)";
        prints(&rt, rt.alloc(), &none, nothing);
    }
}
