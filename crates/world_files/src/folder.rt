//! Folders in which files are opened and created by their paths.

ghost use Rattle.std.specs.Prelude.{◌≡◌, ℕ, [], List, Option, Some, None, IfOk, OnOk, OnErr, option_map};
ghost use Rattle.world_files.specs.Folders.{Holdings, IsAllOf, IsCreatedAt, IsWritten, WritesNoOther, held_in, written_in};

use std::alloc::Global;
use std::fs;
use std::io::{self, ErrorKind, Read, Write};
use std::rt::Files;

/// Folder in which files are opened and created by their paths.
///
/// A folder that tells what was written also tells that a created file was empty (`fresh`): what is appended to
/// a text that isn't known says nothing of the text afterwards.
pub trait Folder {
    /// Holds what a file is read by, from its begin.
    type File: Read + Drop;

    /// Holds what a file that was created is written by.
    type Created: Write + Drop;

    // The bytes that the file at each path holds, where that is known.
    ghost holds: { Self → Holdings };

    // The bytes that were written to the file that was created and closed at each path, where that
    // is known.
    ghost written: { Self → Holdings };

    // The bytes of a file that was just created: none, where that is known.
    ghost fresh: { Option (List ℕ) };

    // A file was created at this path, and may be closed.
    ghost is_created: { Self → List ℕ → Type 0 };

    /// The file at a path.
    ///
    /// # Errors
    ///
    /// Returns why it can't be opened.
    fn open(&self, path: &str) -> io::Result<Self::File>
        ensures { IfOk result (λ file.
            IsAllOf (holds self.now path.now) (Self.File.remaining file)) };

    /// An empty file at a path, in place of one that may be there.
    ///
    /// # Errors
    ///
    /// Returns why it can't be created.
    fn create(&mut self, path: &str) -> io::Result<Self::Created>
        ensures empty { IfOk result
            (λ file. Self.Created.contents file ≡ fresh) }
        ensures created { OnOk result
            (is_created self.new path.now) }
        ensures others { WritesNoOther path.now (written self.old) (written self.new) };

    /// Ends the writing of the file that was created at a path: what was written is what it holds.
    fn close(&mut self, path: &str, file: Self::Created)
        requires { is_created self.old path.now }
        ensures written { IsWritten (written self.new path.now) fresh (Self.Created.contents file) }
        ensures others { WritesNoOther path.now (written self.old) (written self.new) };
}

/// The files of the system. No clause knows what they hold.
#[derive_where(Clone, Copy)]
pub struct System<'r, R> {
    files: &'r R,
}

impl<'r, R> System<'r, R> {
    /// The files that this runtime opens.
    pub fn new(files: &'r R) -> Self {
        System { files }
    }
}

/// A file of the system that is written. No clause knows what it holds.
#[derive(Drop)]
pub struct SystemFile<F> {
    file: F,
}

impl<F: Write> Write for SystemFile<F> {
    ghost contents = { λ _. None };

    fn write(&mut self, bytes: &[u8]) -> io::Result<usize> {
        self.file.write(bytes)
    }

    fn flush(&mut self) -> io::Result<()> {
        self.file.flush()
    }
}

impl<'r, R: Files> Folder for System<'r, R> {
    type File = R::File;

    type Created = SystemFile<R::File>;

    ghost holds = { λ _ _. None };

    ghost written = { λ _ _. None };

    ghost fresh = { None };

    ghost is_created = { λ _ _. Unit {0} };

    fn open(&self, path: &str) -> io::Result<R::File> {
        fs::open(self.files, path)
    }

    fn create(&mut self, path: &str) -> io::Result<SystemFile<R::File>> {
        match fs::create(self.files, path) {
            Ok(file) => Ok(SystemFile { file }),
            Err(error) => Err(error),
        }
    }

    fn close(&mut self, _path: &str, file: SystemFile<R::File>) {
        drop(file);
    }
}

/// A file in memory.
#[derive(Clone, Copy)]
pub struct MemoryFile<'b> {
    pub path: &'b str,
    pub bytes: &'b [u8],
}

/// A file that was created in memory, and what it holds once it is closed.
#[derive(Drop)]
pub struct CreatedFile {
    path: String,
    bytes: Vec<u8>,
}

/// Files in memory, found by their whole paths. Of two with the same path the first is opened. A file that is created stands apart from
/// them: it isn't opened again, and of several the folder keeps the latest.
#[derive(Drop)]
pub struct MemoryFolder<'b> {
    alloc: Global,
    files: &'b [MemoryFile<'b>],
    created: Option<CreatedFile>,
}

impl<'b> MemoryFolder<'b> {
    /// A folder of these files.
    pub fn new(alloc: Global, files: &'b [MemoryFile<'b>]) -> MemoryFolder<'b>
        ensures files { result.files.now ≡ files.now }
        ensures created { result.created ≡ None }
    {
        MemoryFolder {
            alloc,
            files,
            created: None,
        }
    }

    /// Returns what was written to the file that was created and closed at a path.
    pub fn file_bytes(&self, path: &str) -> Option<&[u8]>
        ensures { option_map (λ bytes. bytes.now) result
            ≡ written_in self.now.created path.now }
    {
        match &self.created {
            Some(created) if created.path.as_str() == path => Some(created.bytes.as_slice()),
            _ => None,
        }
    }
}

impl<'b> Folder for MemoryFolder<'b> {
    type File = &'b [u8];

    type Created = Vec<u8>;

    ghost holds = { λ folder path. held_in folder.files.now path };

    ghost written = { λ folder path. written_in folder.created path };

    ghost fresh = { Some [] };

    ghost is_created = { λ folder path. IsCreatedAt folder.created path };

    /// The bytes of the file of this path.
    ///
    /// # Errors
    ///
    /// `NotFound` where there is none.
    fn open(&self, path: &str) -> io::Result<&'b [u8]>
        ensures ok { IfOk result (λ file.
            IsAllOf (held_in self.now.files.now path.now) (Some file.now)) }
        ensures found { IfOk result (λ file. held_in
            self.now.files.now path.now ≡ Some file.now) }
        ensures err { OnErr result
            (held_in self.now.files.now path.now ≡ None) }
    {
        for file in self.files {
            if file.path == path {
                return Ok(file.bytes);
            }
        }
        Err(io::Error::new(ErrorKind::NotFound, "no such file"))
    }

    fn create(&mut self, path: &str) -> io::Result<Vec<u8>>
        ensures empty { IfOk result
            (λ file. Some file.items ≡ Some []) }
        ensures created { OnOk result
            (IsCreatedAt self.new.created path.now) }
        ensures others { WritesNoOther path.now
            (written_in self.old.created) (written_in self.new.created) }
        ensures files { self.new.files ≡ self.old.files }
    {
        self.created = Some(CreatedFile {
            path: String::from_str(self.alloc, path)?,
            bytes: Vec::new(self.alloc),
        });
        Ok(Vec::new(self.alloc))
    }

    fn close(&mut self, path: &str, file: Vec<u8>)
        requires { IsCreatedAt self.old.created path.now }
        ensures written { IsWritten (written_in self.new.created path.now)
            (Some []) (Some file.items) }
        ensures found { written_in self.new.created path.now
            ≡ Some file.items }
        ensures others { WritesNoOther path.now
            (written_in self.old.created) (written_in self.new.created) }
        ensures files { self.new.files ≡ self.old.files }
    {
        match &mut self.created {
            Some(created) => created.bytes = file,
            None => unreachable!(),
        }
    }
}
