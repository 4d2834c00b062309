//! The files of a host in memory.
ghost use Rattle.std.specs.Prelude.{◌≡◌, OnOk, OnErr};
ghost use Rattle.std.specs.Option.{option_copied};
ghost use Rattle.std.specs.FinMap as map;
ghost use Rattle.goal_base.specs.DeviceCalls.{grown};

use goal_limits::NoMemory;
use std::alloc::Global;
use std::collections::BTreeMap;
use std::marker::Model;

// Files by their names. Contracts see a map from the bytes of a name to the bytes of its file.
#[derive(Drop)]
pub(crate) struct NamedFiles {
    by_name: BTreeMap<String, Vec<u8>>,
}

impl Model for NamedFiles {
    ghost use Rattle.std.specs.Coded.{coded_ℕ, coded_list};
    ghost use Rattle.std.specs.FinMap as map;
    ghost use Rattle.goal_base.specs.Device.{Files};
    ghost use Rattle.goal_base.specs.NamedFiles.{files_of};

    ghost Value = { Files };

    ghost coded = { map.code (coded_list coded_ℕ) (coded_list coded_ℕ) };

    ghost view = { λ f. files_of f.by_name.entries };
}

impl NamedFiles {
    pub(crate) fn new(alloc: Global) -> NamedFiles
        ensures { result ≡ map.empty }
    {
        NamedFiles {
            by_name: BTreeMap::new(alloc),
        }
    }

    pub(crate) fn get(&self, name: &str) -> Option<&[u8]>
        ensures { option_copied result ≡ map.get self.now name.now }
    {
        match self.by_name.get(name) {
            Some(bytes) => Some(bytes.as_slice()),
            None => None,
        }
    }

    // Sets the bytes of a file, which need not exist. On `Err` the files are unchanged.
    pub(crate) fn set(&mut self, alloc: Global, name: &str, bytes: Vec<u8>) -> Result<(), NoMemory>
        ensures ok { OnOk result (self.new ≡ map.insert self.old name.now bytes.items) }
        ensures err { OnErr result (self.new ≡ self.old) }
    {
        let key = String::from_str(alloc, name)?;
        self.by_name.insert(key, bytes)?;
        Ok(())
    }

    // Appends to a file, if it exists. On `Err` the files are unchanged.
    pub(crate) fn append(&mut self, name: &str, piece: &[u8]) -> Result<(), NoMemory>
        ensures ok { OnOk result (self.new ≡ grown (map.get self.old name.now) self.old name.now piece.now) }
        ensures err { OnErr result (self.new ≡ self.old) }
    {
        match self.by_name.get_mut(name) {
            Some(bytes) => {
                bytes.extend_from_slice(piece)?;
                Ok(())
            }
            None => Ok(()),
        }
    }
}
