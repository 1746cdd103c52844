//! The files of the system.

ghost use Rattle.std.specs.Prelude.{◌≡◌, ℕ, ◌+◌, ◌≤◌, List, length, Some, None, IfOk, IsErrOf};
ghost use Rattle.weave_base.specs.Reading.{IsReadWithin, IsChunk};

use crate::count::count_up;
use crate::outside::{FileFault, Files};
use std::alloc::Global;
use std::fs;
use std::io::Read;

const CHUNK_LEN: usize = 8192;

/// The files of the system, by their paths.
///
/// A path is opened as it is given, from the current directory. Of a file no more than one byte past the limit is
/// read. It tells nothing of what the files hold.
#[derive(Drop)]
pub struct DirFiles<R> {
    rt: R,
    faults: u64,
    last_failed: Option<String>,
}

impl<R: std::rt::Files> DirFiles<R> {
    /// The files of this runtime, no load of which has failed yet.
    pub fn new(rt: R) -> DirFiles<R>
        ensures faults { ⟦<DirFiles<R> as Files>⟧.faults result ≡ 0 }
        ensures last_failed { ⟦<DirFiles<R> as Files>⟧.last_failed result ≡ None }
    {
        DirFiles {
            rt,
            faults: 0,
            last_failed: None,
        }
    }
}

impl<R: std::rt::Files> Files for DirFiles<R> {
    ghost use Rattle.std.specs.Prelude.{None, option_map, string_bytes};

    ghost contents = { λ _. None };

    ghost faults = { λ s. s.faults };

    ghost last_failed = { λ s. option_map string_bytes s.last_failed };

    fn load(&mut self, alloc: Global, name: &str, limit: u64) -> Result<Vec<u8>, FileFault> {
        let failed_name = String::from_str(alloc, name)?;
        match read_file(&self.rt, alloc, name, limit) {
            Err(FileFault::Failed) => {
                self.faults = count_up(self.faults);
                self.last_failed = Some(failed_name);
                Err(FileFault::Failed)
            }
            answer => answer,
        }
    }
}

fn read_file<R: std::rt::Files>(
    rt: &R,
    alloc: Global,
    name: &str,
    limit: u64,
) -> Result<Vec<u8>, FileFault>
    ensures { IfOk result (λ bytes. length bytes.items ≤ limit) }
{
    match fs::open(rt, name) {
        Ok(mut file) => read_within(&mut file, alloc, limit),
        Err(_) => Err(FileFault::Failed),
    }
}

// Reads to the end, or one byte past the limit.
fn read_within<R: Read>(reader: &mut R, alloc: Global, limit: u64) -> Result<Vec<u8>, FileFault>
    ensures read { (bytes : List ℕ) → R.remaining reader.old ≡ Some bytes → IsReadWithin bytes limit result }
    ensures bounded { IfOk result (λ bytes. length bytes.items ≤ limit) }
{
    let mut bytes = Vec::new(alloc);
    'chunks: for _ in 0..u64::MAX {
        let left = limit - bytes.len() as u64;
        let count = read_chunk(reader, &mut bytes, left)?;
        if count == 0 {
            return Ok(bytes);
        }
        if limit < bytes.len() as u64 {
            return Err(FileFault::TooLong);
        }
    }
    Err(FileFault::Failed)
}

// Reads some bytes behind those that are there, at most one more than `left`, and answers how many.
fn read_chunk<R: Read>(reader: &mut R, bytes: &mut Vec<u8>, left: u64) -> Result<usize, FileFault>
    ensures read { IfOk result
        (IsChunk bytes.old.items bytes.new.items (R.remaining reader.old) (R.remaining reader.new) (left + 1)) }
    ensures short { ¬ IsErrOf result FileFault.TooLong }
{
    let mut chunk = [0u8; CHUNK_LEN];
    let most = left.min(CHUNK_LEN as u64 - 1) as usize + 1;
    let Ok(count) = reader.read(&mut chunk[..most]) else {
        return Err(FileFault::Failed);
    };
    bytes.extend_from_slice(&chunk[..count])?;
    Ok(count)
}

#[cfg(test)]
mod tests {
    use super::*;
    use std::env;
    use std::test::Fail;

    #[test]
    fn a_file_is_loaded_up_to_its_limit(rt: HostRuntime) -> Result<(), Fail> {
        let alloc = rt.alloc();
        let folder = env::temp_dir(&rt)?;
        let folder = folder.as_str();
        let process = std::process::id(rt.process());
        let path = format!(in alloc; "{folder}/weave_base_{process}")?;
        let missing = format!(in alloc; "{folder}/weave_base_{process}_missing")?;
        let bytes = [5u8; CHUNK_LEN + 1];
        fs::write(&rt, path.as_str(), bytes.as_slice())?;
        let len = bytes.len() as u64;
        let mut files = DirFiles::new(rt);
        let whole = files.load(alloc, path.as_str(), len);
        let cut = files.load(alloc, path.as_str(), len - 1);
        let none = files.load(alloc, missing.as_str(), len);
        fs::remove_file(&rt, path.as_str())?;
        assert_eq!(rt;
            whole.as_ref().ok().map(|v| v.as_slice()),
            Some(bytes.as_slice())
        );
        assert_eq!(rt; cut.err(), Some(FileFault::TooLong));
        assert_eq!(rt; none.err(), Some(FileFault::Failed));
        Ok(())
    }
}
