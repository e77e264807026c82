// What an installed key seals with and opens with.

ghost use Rattle.std.specs.Prelude.{◌≡◌};
ghost use Rattle.ov_model.specs.Keys.{material_of};

use ov_gcm::GcmKey;
use ov_model::KeyConf;
use std::marker::Model;

/// The two directions of an installed key, ready for use: the AES keys, and the 8 bytes that stand behind
/// the packet id in the nonces of each. Contracts see it as the bytes that it was made of.
#[derive(Clone, Copy)]
pub struct KeyPair {
    pub seal: GcmKey,
    pub seal_tail: [u8; 8],
    pub unseal: GcmKey,
    pub unseal_tail: [u8; 8],
}

impl Model for KeyPair {
    ghost use Rattle.ov_model.specs.Tables.{Material};

    ghost Value = { Material };

    ghost view = { λ p. record { encrypt = record { key = p.seal; tail = p.seal_tail }; decrypt = record { key = p.unseal; tail = p.unseal_tail } } };

    ghost inverse = { λ m. record { seal = m.encrypt.key; seal_tail = m.encrypt.tail; unseal = m.decrypt.key; unseal_tail = m.decrypt.tail } };
}

impl KeyPair {
    /// The keys that a command gives, ready for use.
    pub fn of(conf: &KeyConf) -> KeyPair
        ensures { result ≡ material_of conf.now }
    {
        KeyPair {
            seal: GcmKey::new(&conf.encrypt.key),
            seal_tail: conf.encrypt.tail,
            unseal: GcmKey::new(&conf.decrypt.key),
            unseal_tail: conf.decrypt.tail,
        }
    }
}
