//! A folder that has the same bytes under each name.

use crate::ports::{FetchFault, Folder, KeepFault};
use std::alloc::Global;
use std::marker::Model;

/// The same bytes under each name. What is kept is dropped, so that nothing is told of its content, and nothing fails.
#[derive(Drop)]
pub struct OneFolder {
    bytes: Vec<u8>,
}

impl Model for OneFolder {
    ghost use Rattle.std.specs.Prelude.{List, ℕ};

    ghost Value = { List ℕ };

    ghost view = { λ f. f.bytes.items };
}

impl OneFolder {
    ghost use Rattle.std.specs.Prelude.{◌≡◌};

    /// A folder with these bytes. This takes no memory.
    pub fn new(_alloc: Global, bytes: Vec<u8>) -> OneFolder
        ensures { result ≡ bytes.items }
    {
        OneFolder { bytes }
    }
}

impl Folder for OneFolder {
    ghost use Rattle.std.specs.Prelude.{◌≡◌, None, Some, Ok};
    ghost use Rattle.t_ports.specs.Memory.{GivesBytes};

    ghost files = { λ _. None };

    ghost fetch_faults = { λ _. 0 };

    ghost keep_faults = { λ _. 0 };

    ghost fetched = { λ _ _ _. Unit {0} };

    ghost fetched_nothing = { λ _. tt };

    ghost fetched_both = { λ _ _ _ _ _ _ _. tt };

    fn fetch(&mut self, alloc: Global, _name: &str, cap: usize) -> Result<Vec<u8>, FetchFault>
        // Its bytes stand under each name, and can be read.
        ensures gives { GivesBytes (Some self.old) cap result }
        ensures same { self.new ≡ self.old }
    {
        if self.bytes.len() > cap {
            return Err(FetchFault::Long {
                read: self.bytes.len(),
            });
        }
        match Vec::from_slice(alloc, &self.bytes) {
            Ok(copy) => Ok(copy),
            Err(_) => Err(FetchFault::Memory),
        }
    }

    fn keep(&mut self, _alloc: Global, _name: &str, _bytes: &[u8]) -> Result<(), KeepFault>
        ensures drops { result ≡ Ok tt }
        ensures same { self.new ≡ self.old }
    {
        Ok(())
    }
}
