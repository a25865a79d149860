//! What the files of source frames say, by key.
ghost use Rattle.std.specs.Prelude.{◌≡◌, ◌+◌, [], None, length, OnOk, OnErr};
ghost use Rattle.conform_job.specs.Keys.{info_at};
ghost use Rattle.conform_job.specs.Infos.{HasEachOnce};
ghost use Rattle.conform_job.specs.inside.Infos.{IsSetTo};

use cf_base::Key;
use dpx_header::FrameInfo;
use std::alloc::{AllocError, Global};
use std::collections::BTreeMap;
use std::marker::Model;

/// Infos by key. Contracts see the list of the entries, in the keys' order.
#[derive(Drop)]
pub struct Infos {
    by_key: BTreeMap<Key, FrameInfo>,
}

impl Model for Infos {
    ghost use Rattle.std.specs.Prelude.{List};
    ghost use Rattle.cf_base.specs.declared.key.Key.{Key};
    ghost use Rattle.dpx_header.specs.declared.info.FrameInfo.{FrameInfo};

    ghost Value = { List (Key × FrameInfo) };

    ghost view = { λ a. a.by_key.entries };
}

impl Infos {
    /// Infos of no keys.
    pub fn new(alloc: Global) -> Self
        ensures { result ≡ [] }
    {
        Infos {
            by_key: BTreeMap::new(alloc),
        }
    }

    /// What is known of a key.
    pub fn get(&self, key: Key) -> Option<FrameInfo>
        ensures { result ≡ info_at self.now key }
    {
        self.by_key.get(&key).copied()
    }

    /// Sets what is known of a key; fails for want of memory alone.
    pub fn set(&mut self, key: Key, info: FrameInfo) -> Result<(), AllocError>
        ensures set { OnOk result (IsSetTo self.old key info self.new) }
        ensures len { OnOk result (info_at self.old key ≡ None → length self.new ≡ length self.old + 1) }
        ensures once { OnOk result (info_at self.old key ≡ None → HasEachOnce self.old → HasEachOnce self.new) }
        ensures err { OnErr result (self.new ≡ self.old) }
    {
        match self.by_key.insert(key, info) {
            Ok(_) => Ok(()),
            Err(_) => Err(AllocError),
        }
    }
}
