//! The files that a run writes. They are opened before it, so that none is in vain, and changed when it is over.

use crate::files::is_input;
use crate::running::Wanted;
use anyhow::{Context, Result};
use std::alloc::AllocError;
use std::fs::{self, File, Metadata, OpenOptions};
use std::io::{self, ErrorKind, Write};
use std::os::unix::fs::MetadataExt;

/// The book and the picture of a run, as far as they are wanted.
#[derive(Drop)]
pub(crate) struct Outputs<'w> {
    book: Option<Output<'w>>,
    picture: Option<Output<'w>>,
}

/// A file that is written.
#[derive(Drop)]
struct Output<'w> {
    path: &'w str,
    file: File,
    /// Which file of a disk it is; none for a device or a pipe.
    node: Option<Node>,
    /// Whether it was made, and has nothing yet.
    is_new: bool,
    /// Where it is first written, if the run goes on from it.
    beside: Option<Beside>,
}

/// A file that takes the place of another one.
#[derive(Drop)]
struct Beside {
    path: String,
    target: String,
}

/// Which file it is, whatever it is named by: its device, and its number there.
type Node = (u64, u64);

impl<'w> Outputs<'w> {
    /// None that is open.
    pub(crate) fn new() -> Outputs<'w> {
        Outputs {
            book: None,
            picture: None,
        }
    }

    /// Opens what is wanted of a run of a workload, and changes nothing. It answers why not, where a file would be written over another one.
    pub(crate) fn open(
        &mut self,
        rt: &HostRuntime,
        path: &str,
        wanted: &Wanted<'w>,
    ) -> Result<Option<String>> {
        if let Some(book) = wanted.book {
            self.book = Some(open(rt, book)?);
        }
        if let Some(picture) = wanted.picture {
            self.picture = Some(open(rt, picture)?);
        }
        if let Some(why) = self.clash(rt, path, wanted)? {
            return Ok(Some(why));
        }
        if let (Some(book), Some(from)) = (&mut self.book, wanted.from) {
            book.spare(rt, from)?;
        }
        Ok(None)
    }

    // What would be written over something else, if anything.
    fn clash(
        &self,
        rt: &HostRuntime,
        path: &str,
        wanted: &Wanted<'_>,
    ) -> Result<Option<String>, AllocError> {
        let used = Used {
            workload: node_of(rt, path),
            told: node_of(rt, "/dev/stdout"),
        };
        if let Some(book) = &self.book {
            if let Some(cause) = used.by(book) {
                return why(rt, book.path, cause, "the book");
            }
        }
        match &self.picture {
            Some(picture) => match self.cause(rt, picture, used, wanted) {
                Some(cause) => why(rt, picture.path, cause, "the picture"),
                None => Ok(None),
            },
            None => Ok(None),
        }
    }

    // What a picture would be written over.
    fn cause(
        &self,
        rt: &HostRuntime,
        picture: &Output<'_>,
        used: Used,
        wanted: &Wanted<'_>,
    ) -> Option<&'static str> {
        if let Some(from) = wanted.from {
            if picture.is(node_of(rt, from)) {
                return Some("the run goes on from there");
            }
        }
        if let Some(book) = &self.book {
            if picture.is(book.node) {
                return Some("the book is written there");
            }
        }
        used.by(picture)
    }

    /// Writes the book and the picture.
    pub(crate) fn write(
        &mut self,
        rt: &HostRuntime,
        book: &[u8],
        picture: Option<&[u8]>,
    ) -> Result<()> {
        if let Some(output) = &mut self.book {
            output.write(rt, book)?;
        }
        if let (Some(output), Some(picture)) = (&mut self.picture, picture) {
            output.write(rt, picture)?;
        }
        Ok(())
    }

    /// Takes away the files that were made, and have nothing.
    pub(crate) fn end(&self, rt: &HostRuntime) {
        if let Some(output) = &self.book {
            output.end(rt);
        }
        if let Some(output) = &self.picture {
            output.end(rt);
        }
    }
}

/// Files that are used otherwise.
#[derive(Clone, Copy)]
struct Used {
    workload: Option<Node>,
    told: Option<Node>,
}

impl Used {
    // What a file is used for besides.
    fn by(self, output: &Output<'_>) -> Option<&'static str> {
        if output.is(self.workload) {
            return Some("the workload is read from there");
        }
        if output.is(self.told) {
            return Some("standard output goes there");
        }
        None
    }
}

impl Output<'_> {
    // Whether it is a file of a disk that stands there.
    fn is(&self, node: Option<Node>) -> bool {
        node.is_some() && self.node == node
    }

    // Sees that it is written beside, where it is the file that a run goes on from.
    fn spare(&mut self, rt: &HostRuntime, from: &str) -> Result<()> {
        if !self.is(node_of(rt, from)) {
            return Ok(());
        }
        let target = fs::canonicalize(rt, self.path).context(format_args!("{}", self.path))?;
        let target = target.into_string();
        let path = format!(in rt.alloc(); "{target}.new")?;
        try_new(rt, path.as_str()).context(format_args!("{path}"))?;
        self.beside = Some(Beside { path, target });
        Ok(())
    }

    fn write(&mut self, rt: &HostRuntime, bytes: &[u8]) -> Result<()> {
        if let Some(beside) = &self.beside {
            return beside
                .write(rt, bytes)
                .context(format_args!("{}", self.path));
        }
        self.write_here(bytes)
            .context(format_args!("{}", self.path))?;
        self.is_new = false;
        Ok(())
    }

    fn write_here(&mut self, bytes: &[u8]) -> io::Result<()> {
        if self.node.is_some() {
            self.file.set_len(0)?;
        }
        self.file.write_all(bytes)
    }

    fn end(&self, rt: &HostRuntime) {
        if self.is_new {
            // it is empty, and stays so where it can't be taken away
            let _removed = fs::remove_file(rt, self.path);
        }
    }
}

impl Beside {
    // Writes the file, and puts it in the place of the other one, whose permissions it takes.
    fn write(&self, rt: &HostRuntime, bytes: &[u8]) -> io::Result<()> {
        let file = File::create_new(rt, self.path.as_str())?;
        match self.fill(rt, file, bytes) {
            Ok(()) => Ok(()),
            Err(error) => {
                let _removed = fs::remove_file(rt, self.path.as_str());
                Err(error)
            }
        }
    }

    fn fill(&self, rt: &HostRuntime, mut file: File, bytes: &[u8]) -> io::Result<()> {
        let target = fs::metadata(rt, self.target.as_str())?;
        file.set_permissions(target.permissions())?;
        file.write_all(bytes)?;
        file.sync_all()?;
        fs::rename(rt, self.path.as_str(), self.target.as_str())
    }
}

// Opens a file that is written, and makes it where there is none. What it has stays.
fn open<'w>(rt: &HostRuntime, path: &'w str) -> Result<Output<'w>> {
    match File::create_new(rt, path) {
        Ok(file) => {
            let made = output_of(path, file, true);
            if made.is_err() {
                let _removed = fs::remove_file(rt, path);
            }
            made.context(format_args!("{path}"))
        }
        Err(error) if error.kind() == ErrorKind::AlreadyExists => {
            open_old(rt, path).context(format_args!("{path}"))
        }
        Err(error) => Err(error).context(format_args!("{path}")),
    }
}

// Tries whether a file can be made, and takes it away until it is written.
fn try_new(rt: &HostRuntime, path: &str) -> io::Result<()> {
    let _made = File::create_new(rt, path)?;
    fs::remove_file(rt, path)
}

fn open_old<'w>(rt: &HostRuntime, path: &'w str) -> io::Result<Output<'w>> {
    let file = OpenOptions::new().write(true).create(true).open(rt, path)?;
    output_of(path, file, false)
}

fn output_of(path: &str, file: File, is_new: bool) -> io::Result<Output<'_>> {
    let metadata = file.metadata()?;
    Ok(Output {
        path,
        file,
        node: node(&metadata),
        is_new,
        beside: None,
    })
}

// Which file a path names, where it is one of a disk.
fn node_of(rt: &HostRuntime, path: &str) -> Option<Node> {
    let path = if is_input(path) { "/dev/stdin" } else { path };
    match fs::metadata(rt, path) {
        Ok(metadata) => node(&metadata),
        Err(_) => None,
    }
}

fn node(metadata: &Metadata) -> Option<Node> {
    if metadata.is_file() {
        Some((metadata.dev(), metadata.ino()))
    } else {
        None
    }
}

// Why a file isn't written.
fn why(
    rt: &HostRuntime,
    path: &str,
    cause: &str,
    what: &str,
) -> Result<Option<String>, AllocError> {
    let why = format!(in rt.alloc(); "{path}: {cause}; name another file for {what}")?;
    Ok(Some(why))
}
