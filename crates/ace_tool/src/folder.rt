// Files that are opened by their names.
ghost use Rattle.std.specs.Prelude.{◌≡◌, List, ℕ, true, IfOk, IfErr};
ghost use Rattle.ace_tool.specs.Held.{Held, is_absence, may_be_missing, told_of};

use ace_io::Source;

/// Why a file could not be opened.
#[derive(Clone, Copy)]
pub enum OpenErr {
    /// There is no file of this name.
    NotThere,
    /// No file can have this name.
    NoName,
    /// It may not be read.
    NotAllowed,
    /// Another reason.
    Failed,
}

impl OpenErr {
    /// Whether there is no such file.
    pub(crate) fn is_absence(self) -> bool
        ensures { result ≡ is_absence self }
    {
        match self {
            OpenErr::NotThere | OpenErr::NoName => true,
            OpenErr::NotAllowed | OpenErr::Failed => false,
        }
    }
}

/// Where files are opened by their names.
pub trait Folder {
    /// What gives the bytes of an opened file.
    type File: Source + Drop;

    /// What is told of the file of this name.
    ghost holds: { Self → List ℕ → Held };

    /// Opens the file of this name, to read it from its first byte.
    ///
    /// # Errors
    ///
    /// Why it could not be opened.
    fn open(&self, name: &str) -> Result<Self::File, OpenErr>
        ensures opened { IfOk result (λ file. Self.File.left file
            ≡ told_of (holds self.now name.now)) }
        ensures missing { IfErr result (λ error. is_absence error ≡ true
            → may_be_missing (holds self.now name.now) ≡ true) };
}
