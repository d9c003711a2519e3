//! Files and directories, by number.

/// The root directory's number. Other objects are numbered from 1, in order of making.
pub const ROOT: u16 = 0;

/// Whether an object is a file or a directory.
#[derive(Clone, Copy, PartialEq, Eq, Debug)]
pub enum Kind {
    File,
    Directory,
}

/// An object, as a name leads to it.
#[derive(Clone, Copy, PartialEq, Eq, Debug)]
pub struct Object {
    pub number: u16,
    pub kind: Kind,
}
