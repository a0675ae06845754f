//! A disk over a file of the operating system.
ghost use Rattle.std.specs.Prelude.{◌≡◌, ◌+◌, ◌^◌, ◌≤◌, ◌++◌, ℕ, List, [], length, OnOk, OnErr};
ghost use Rattle.cat_io.specs.Causes.{CountsFault};

use cat_disk::{Disk, DiskDone, DiskRead, MAX_LENGTH};
use cat_tree::text::Text;
use os::RangeLock;
use std::alloc::AllocError;
use std::fs::{self, OpenOptions};
use std::io;
use std::os::fd::AsRawFd;
use std::os::unix::fs::FileExt;

/// How many bytes are read at once.
const PIECE: usize = 65536;

/// A file of the operating system, which is opened, or made, at the first call. It tells nothing of its content.
///
/// While it is open, another `FileDisk` can't open it. Each error of the system is a fault. After a sync that failed no
/// further call is made, since a system may tell the next sync as done though it lost what was written: each then counts a
/// fault, and the file has to be opened anew.
#[derive(Drop)]
pub struct FileDisk {
    rt: HostRuntime,
    path: Text,
    file: Option<fs::File>,
    lost: bool,
    faults: u64,
}

impl FileDisk {
    /// A disk over the file of this name, with no fault yet. It doesn't call the system, and takes no memory.
    pub fn new(rt: &HostRuntime, path: Text) -> FileDisk
        ensures { result.faults ≡ 0 }
    {
        FileDisk {
            rt: *rt,
            path,
            file: None,
            lost: false,
            faults: 0,
        }
    }

    // Counts a fault. At its greatest value the count stays.
    fn count_fault(&mut self)
        ensures counts { CountsFault self.old.faults self.new.faults }
        ensures later { self.old.faults ≤ self.new.faults }
    {
        self.faults = self.faults.saturating_add(1);
    }

    // Opens the file, if it isn't open.
    fn open(&mut self) -> io::Result<()>
        ensures { self.new.faults ≡ self.old.faults }
    {
        if self.lost {
            return Err(io::ErrorKind::Other.into());
        }
        if self.file.is_none() {
            self.file = Some(open_file(&self.rt, self.path.as_str())?);
        }
        Ok(())
    }

    // Writes all of the bytes.
    fn write_all(&mut self, position: u64, bytes: &[u8]) -> io::Result<()>
        ensures same { self.new.faults ≡ self.old.faults }
        ensures within { OnOk result (position + length bytes.now ≤ 2 ^ 62) }
    {
        self.open()?;
        match &self.file {
            Some(file) => write_file(file, position, bytes),
            None => Err(io::ErrorKind::Other.into()),
        }
    }

    // Syncs the file. After a failure it isn't used again.
    fn sync_all(&mut self) -> io::Result<()>
        ensures { self.new.faults ≡ self.old.faults }
    {
        self.open()?;
        let synced = match &self.file {
            Some(file) => file.sync_all(),
            None => Err(io::ErrorKind::Other.into()),
        };
        self.lost = synced.is_err();
        synced
    }

    // Appends the whole content; where that fails, nothing.
    fn read_all(&mut self, out: &mut Vec<u8>) -> Result<(), ReadFault>
        ensures same { self.new.faults ≡ self.old.faults }
        ensures err { OnErr result (out.new.items ≡ out.old.items) }
    {
        self.open()?;
        match &self.file {
            Some(file) => read_file(file, out),
            None => Err(ReadFault::Failed),
        }
    }
}

/// Why nothing was read.
#[derive(Clone, Copy, Drop)]
enum ReadFault {
    Failed,
    NoMemory,
}

impl From<io::Error> for ReadFault {
    fn from(_error: io::Error) -> ReadFault {
        ReadFault::Failed
    }
}

impl From<AllocError> for ReadFault {
    fn from(_error: AllocError) -> ReadFault {
        ReadFault::NoMemory
    }
}

// Opens a file, or makes it, and locks it. What an earlier program wrote is made durable, and read from the disk from then on.
fn open_file(rt: &HostRuntime, path: &str) -> io::Result<fs::File> {
    let file = match OpenOptions::new()
        .read(true)
        .write(true)
        .create_new(true)
        .open(rt, path)
    {
        Ok(file) => file,
        Err(error) if error.kind() == io::ErrorKind::AlreadyExists => {
            OpenOptions::new().read(true).write(true).open(rt, path)?
        }
        Err(error) => return Err(error),
    };
    if !file.metadata()?.is_file() {
        return Err(io::ErrorKind::Unsupported.into());
    }
    if os::try_lock_range(file.as_raw_fd(), RangeLock::Exclusive, 1 << 62, 1) != 0 {
        return Err(io::Error::from_raw_os_error(os::errno()));
    }
    file.sync_all()?;
    let advised = libc::posix_fadvise(file.as_raw_fd(), 0, 0, libc::POSIX_FADV_DONTNEED);
    if advised != 0 {
        return Err(io::Error::from_raw_os_error(advised));
    }
    sync_folder(rt, path)?;
    Ok(file)
}

// Makes durable that the file is in its folder.
fn sync_folder(rt: &HostRuntime, path: &str) -> io::Result<()> {
    let mut folder = fs::canonicalize(rt, path)?;
    folder.pop();
    fs::File::open(rt, folder.as_str())?.sync_all()
}

// Writes all of the bytes from a position on.
fn write_file(file: &fs::File, position: u64, bytes: &[u8]) -> io::Result<()>
    ensures { OnOk result (position + length bytes.now ≤ 2 ^ 62) }
{
    if position > MAX_LENGTH || bytes.len() as u64 > MAX_LENGTH - position {
        return Err(io::ErrorKind::InvalidInput.into());
    }
    let mut done = 0;
    while done < bytes.len() {
        let count = file.write_at(&bytes[done..], position + done as u64)?;
        if count == 0 || count > bytes.len() - done {
            return Err(io::ErrorKind::WriteZero.into());
        }
        done += count;
    }
    Ok(())
}

// Appends the whole content; where that fails, nothing.
fn read_file(file: &fs::File, out: &mut Vec<u8>) -> Result<(), ReadFault>
    ensures { OnErr result (out.new.items ≡ out.old.items) }
{
    let start = out.len();
    match read_pieces(file, out) {
        Ok(()) => Ok(()),
        Err(fault) => {
            out.truncate(start);
            Err(fault)
        }
    }
}

// Appends the content, piece by piece.
fn read_pieces(file: &fs::File, out: &mut Vec<u8>) -> Result<(), ReadFault>
    ensures { (rest : List ℕ) × (out.new.items ≡ out.old.items ++ rest) }
{
    let mut piece = Vec::new(*out.allocator());
    piece.resize(PIECE, 0)?;
    let mut position: u64 = 0;
    while position < MAX_LENGTH {
        let count = file.read_at(&mut piece, position)?;
        if count == 0 {
            return Ok(());
        }
        if count > piece.len() || count > PIECE {
            return Err(ReadFault::Failed);
        }
        out.extend_from_slice(&piece[..count])?;
        position += count as u64;
    }
    Err(ReadFault::Failed)
}

impl Disk for FileDisk {
    ghost content = { λ _. [] };

    ghost moments = { λ _. [] };

    ghost faults = { λ d. d.faults };

    fn read(&mut self, out: &mut Vec<u8>) -> DiskRead {
        match self.read_all(out) {
            Ok(()) => DiskRead::Read,
            Err(ReadFault::NoMemory) => DiskRead::NoMemory,
            Err(ReadFault::Failed) => {
                self.count_fault();
                DiskRead::Failed
            }
        }
    }

    fn write_at(&mut self, position: u64, bytes: &[u8]) -> DiskDone {
        match self.write_all(position, bytes) {
            Ok(()) => DiskDone::Done,
            Err(_) => {
                self.count_fault();
                DiskDone::Failed
            }
        }
    }

    fn sync(&mut self) -> DiskDone {
        match self.sync_all() {
            Ok(()) => DiskDone::Done,
            Err(_) => {
                self.count_fault();
                DiskDone::Failed
            }
        }
    }
}
