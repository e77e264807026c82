// What is kept of one key.

ghost use Rattle.std.specs.Prelude.{◌≡◌, IfOk};
ghost use Rattle.ov_model.specs.Step.{key_of_conf};

use crate::pair::KeyPair;
use ov_model::{KeyConf, KeyId};
use std::alloc::{AllocError, Global};
use std::marker::Model;

/// One installed key. A serial is the number of keys made before it, so it is never given twice; an id is
/// what datagrams call the key, and may come again. The pair has about 1.7 KB and stands behind a pointer,
/// so that a record moves from its slot to the retired keys at the cost of three words.
#[derive(Drop)]
pub struct KeyRec {
    pub serial: u32,
    pub key_id: KeyId,
    pub pair: Box<KeyPair>,
}

impl Model for KeyRec {
    ghost use Rattle.ov_model.specs.Tables.{Key};

    ghost Value = { Key };

    ghost view = { λ k. record { serial = k.serial; key_id = k.key_id; material = k.pair.value } };
}

impl KeyRec {
    /// The key that a command gives, under the serial `serial`. `Err` is want of memory.
    pub fn of(alloc: Global, serial: u32, conf: &KeyConf) -> Result<KeyRec, AllocError>
        ensures { IfOk result (λ k. k ≡ key_of_conf serial conf.now) }
    {
        let pair = Box::new(alloc, KeyPair::of(conf))?;
        Ok(KeyRec {
            serial,
            key_id: conf.key_id,
            pair,
        })
    }
}
