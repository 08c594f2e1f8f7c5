//! What the program reads from.

/// Where the program gets a file's bytes.
pub trait Source {
    ghost use Rattle.std.specs.Prelude.{ℕ, List};
    ghost use Rattle.cfgprogram.specs.declared.source.Input.{Input};

    ghost fetches: { Self → List ℕ → Input → Self → Type 0 } = { λ old name input new. Unit {0} };

    /// The bytes of the file with this name; `-` is standard input.
    fn fetch(&mut self, name: &str) -> Input
        ensures { fetches self.old name.now result self.new };
}

/// A source that also says why it could not read a file.
pub trait SourceWithReasons: Source {
    ghost use Rattle.std.specs.Prelude.{◌≡◌};
    ghost use Rattle.cfgprogram.specs.declared.source.ReadError.{ReadError};
    ghost use Rattle.cfgprogram.specs.declared.source.ReadError.TheVariants.{Other};

    // The reason that the source gives now.
    ghost reason: { Self → ReadError } = { λ source. Other };

    /// Why the file that was fetched last could not be read, if it could not.
    fn reason(&self) -> ReadError
        ensures { result ≡ reason self.now };
}

/// Why a file could not be read, as far as the system says; running out of memory is no such reason.
#[derive(Clone, Copy, Debug, PartialEq, Eq)]
pub enum ReadError {
    /// There is no such file.
    NotFound,
    /// It is a directory.
    IsADirectory,
    /// Reading it is not permitted.
    PermissionDenied,
    /// Another reason.
    Other,
}

/// What a source returns.
#[derive(Debug, Drop)]
pub enum Input {
    /// The file's bytes.
    Bytes(Vec<u8>),
    /// The file could not be read.
    Unreadable,
    /// There was no memory to read it.
    OutOfMemory,
}
