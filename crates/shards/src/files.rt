//! The files of the system.

ghost use Rattle.std.specs.Prelude.{◌≡◌, ◌<◌, ◌-◌, ◌^◌, All, IfOk, length};

use crate::storage::Storage;
use rj_csv_io::CountedReader;
use rj_shards::division::{PartFile, StoredPart};
use std::alloc::AllocError;
use std::fs::{self, Files, OpenFile};
use std::io::{self, Read, Seek, SeekFrom, Take};

/// The files of the system. They tell nothing of what they hold, as std's files don't either.
#[derive(Drop)]
pub(crate) struct Disk<'r, R: Files> {
    /// The system.
    pub(crate) rt: &'r R,
}

// The files of this many parts in a folder, which is made if it doesn't exist.
fn part_files<'r, R: Files + AllocGlobal>(
    rt: &'r R,
    folder: &str,
    parts: u32,
) -> Result<Vec<StoredPart<PartFile<'r, R>>>, AllocError>
    ensures count { IfOk result (λ v. length v.items ≡ parts) }
{
    let _ = fs::create_dir_all(rt, folder);
    let mut files = Vec::new(rt.alloc());
    for part in 0..parts {
        let path = format!(in rt.alloc(); "{folder}/{part:04}.csv")?;
        files.push(StoredPart::new(PartFile::new(rt, path)))?;
    }
    Ok(files)
}

impl<'r, R: Files + AllocGlobal> Storage for Disk<'r, R> {
    type Reader = CountedReader<Take<R::File>>;

    type Part = StoredPart<PartFile<'r, R>>;

    fn open(&self, name: &str) -> io::Result<CountedReader<Take<R::File>>> {
        let file = fs::open(self.rt, name)?;
        Ok(CountedReader::new(file.take(u64::MAX)))
    }

    fn open_range(
        &self,
        name: &str,
        from: u64,
        to: Option<u64>,
    ) -> io::Result<CountedReader<Take<R::File>>> {
        let mut file = fs::open(self.rt, name)?;
        let _place = file.seek(SeekFrom::Start(from))?;
        let size = to.unwrap_or(u64::MAX).saturating_sub(from);
        Ok(CountedReader::new(file.take(size)))
    }

    fn size(&self, name: &str) -> io::Result<u64> {
        let file = fs::open(self.rt, name)?;
        Ok(file.metadata()?.len())
    }

    fn parts(
        &self,
        folder: &str,
        count: u32,
    ) -> Result<Vec<StoredPart<PartFile<'r, R>>>, AllocError> {
        part_files(self.rt, folder, count)
    }
}
