//! Files in memory.

ghost use Rattle.std.specs.Prelude.{◌≡◌, [], ◌∷◌, ◌++◌, map, option_map, None, IfOk, OnOk, OnErr};
ghost use Rattle.weave_base.specs.Calls.{with_call};
ghost use Rattle.weave_base.specs.Contents.{bytes_of};
ghost use Rattle.weave_base.specs.FilesInMemory.{load_answer, IsAnswer, after_load};
ghost use Rattle.weave_base.specs.MemFile.{file_of};

use crate::count::count_up;
use crate::outside::{FileFault, Files};
use std::alloc::{AllocError, Global};
use std::collections::BTreeSet;
use std::marker::Model;

/// Files in memory, whose listed calls fail.
///
/// A load looks through the files in the order in which they were added. Calls are counted from 1, also those that
/// end for want of memory. The counts of calls and of faults stand still at `u64::MAX`, so from there on each call
/// has that number.
#[derive(Drop)]
pub struct MemFiles {
    alloc: Global,
    files: Vec<MemFile>,
    listed: BTreeSet<u64>,
    calls: u64,
    faults: u64,
    last_failed: Option<String>,
}

#[derive(Drop)]
struct MemFile {
    name: String,
    bytes: Vec<u8>,
}

impl Model for MemFiles {
    ghost use Rattle.std.specs.Prelude.{map, option_map, string_bytes};
    ghost use Rattle.weave_base.specs.FilesInMemory.{FilesInMemory};
    ghost use Rattle.weave_base.specs.MemFile.{file_of};

    ghost Value = { FilesInMemory };

    ghost view = { λ s. record { files = map file_of s.files.items; listed = s.listed.keys; calls = s.calls; faults = s.faults; last_failed = option_map string_bytes s.last_failed } };
}

impl MemFiles {
    /// No files, and no call listed.
    pub fn new(alloc: Global) -> Result<MemFiles, AllocError>
        ensures { IfOk result (λ files. files ≡ record { files = []; listed = []; calls = 0; faults = 0; last_failed = None }) }
    {
        Ok(MemFiles {
            alloc,
            files: Vec::new(alloc),
            listed: BTreeSet::new(alloc),
            calls: 0,
            faults: 0,
            last_failed: None,
        })
    }

    /// Adds a file. Where there is one of that name already, loads go on giving that one.
    pub fn add(&mut self, name: &str, bytes: &[u8]) -> Result<(), AllocError>
        ensures ok { OnOk result (self.new ≡ record self.old { files = self.old.files ++ record { name = name.now; bytes = bytes.now } ∷ [] }) }
        ensures err { OnErr result (self.new ≡ self.old) }
    {
        let name = String::from_str(self.alloc, name)?;
        let bytes = bytes.to_vec(self.alloc)?;
        self.files.push(MemFile { name, bytes })?;
        Ok(())
    }

    /// Lists a call of `load`, so that it fails.
    pub fn fail_at(&mut self, call: u64) -> Result<(), AllocError>
        ensures ok { OnOk result (self.new ≡ record self.old { listed = with_call self.old.listed call }) }
        ensures err { OnErr result (self.new ≡ self.old) }
    {
        self.listed.insert(call)?;
        Ok(())
    }
}

impl Files for MemFiles {
    ghost use Rattle.std.specs.Prelude.{Some};

    ghost contents = { λ s. Some s.files };

    ghost faults = { λ s. s.faults };

    ghost last_failed = { λ s. s.last_failed };

    fn load(&mut self, alloc: Global, name: &str, limit: u64) -> Result<Vec<u8>, FileFault>
        ensures answer { IsAnswer (load_answer self.old name.now limit) result }
        ensures after { self.new ≡ after_load self.old name.now result }
    {
        self.calls = count_up(self.calls);
        let failed_name = String::from_str(alloc, name)?;
        let found = if self.listed.contains(&self.calls) {
            None
        } else {
            find(&self.files, name)
        };
        let Some(bytes) = found else {
            self.faults = count_up(self.faults);
            self.last_failed = Some(failed_name);
            return Err(FileFault::Failed);
        };
        if limit < bytes.len() as u64 {
            return Err(FileFault::TooLong);
        }
        Ok(bytes.to_vec(alloc)?)
    }
}

// The bytes of the first file of the name.
#[tactic(auto, using(crate::proofs::Search::bytes_of_end))]
fn find<'a>(files: &'a [MemFile], name: &str) -> Option<&'a [u8]>
    ensures { option_map (λ bytes. bytes.now) result ≡ bytes_of (map file_of files.now) name.now }
{
    for file in files {
        if file.name.as_str() == name {
            return Some(&file.bytes);
        }
    }
    None
}

#[cfg(test)]
mod tests {
    use super::*;
    use std::test::Fail;

    fn load_from<F: Files>(
        files: &mut F,
        alloc: Global,
        name: &str,
        limit: u64,
    ) -> Result<Vec<u8>, FileFault> {
        files.load(alloc, name, limit)
    }

    #[test]
    fn the_first_file_of_a_name_is_loaded(rt: HostRuntime) -> Result<(), Fail> {
        let alloc = rt.alloc();
        let mut files = MemFiles::new(alloc)?;
        files.add("a.c", b"one")?;
        files.add("b.c", b"")?;
        files.add("a.c", b"other")?;
        files.fail_at(4)?;
        let loads: [(&str, u64, Result<&[u8], FileFault>); 6] = [
            ("a.c", 3, Ok(b"one")),
            ("a.c", 2, Err(FileFault::TooLong)),
            ("c.c", 9, Err(FileFault::Failed)),
            ("a.c", 3, Err(FileFault::Failed)),
            ("a.c", u64::MAX, Ok(b"one")),
            ("b.c", 0, Ok(b"")),
        ];
        for (name, limit, answer) in loads {
            match load_from(&mut files, alloc, name, limit) {
                Ok(bytes) => assert_eq!(rt; Ok(bytes.as_slice()), answer, "{name} in {limit}"),
                Err(fault) => assert_eq!(rt; Err(fault), answer, "{name} in {limit}"),
            }
        }
        Ok(())
    }
}
