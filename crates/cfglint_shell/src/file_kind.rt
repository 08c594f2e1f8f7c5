//! What texts are read as, and the words that name it.

ghost use Rattle.std.specs.Prelude.{◌≡◌};
ghost use Rattle.cfglint_shell.specs.FileKinds.{file_kind_name, kind_requested, of_kind_argument};

use cfgprogram::KindArg;
use cfgprogram::kinds::{YaccKind, kind_name, kind_of};

/// What a text is read as.
#[derive(Clone, Copy, Debug)]
pub enum FileKind {
    /// A file of one of the library's kinds of Yacc.
    Yacc(YaccKind),
    /// A Yacc or Bison file, as Bison reads it.
    Bison,
}

impl FileKind {
    /// The word that names it.
    pub fn name(self) -> &'static str
        ensures { result.now ≡ file_kind_name self }
    {
        match self {
            FileKind::Yacc(kind) => kind_name(kind),
            FileKind::Bison => "bison",
        }
    }
}

/// What `--kind` requests.
#[derive(Clone, Copy, Debug)]
pub enum KindRequest {
    /// That texts are read as this.
    Named(FileKind),
    /// That each is read as the kind that its section names.
    Section,
}

impl KindRequest {
    /// What a word requests, byte for byte.
    pub(crate) fn of_word(word: &str) -> Option<KindRequest>
        ensures { result ≡ kind_requested word.now }
    {
        match word {
            "bison" | "yacc" => Some(KindRequest::Named(FileKind::Bison)),
            _ => of_kind_argument(kind_of(word)),
        }
    }
}

/// What an argument requests that names this, if it names a kind of Yacc or the one of the section.
fn of_kind_argument(argument: Option<KindArg>) -> Option<KindRequest>
    ensures { result ≡ of_kind_argument argument }
{
    match argument {
        Some(KindArg::Named(kind)) => Some(KindRequest::Named(FileKind::Yacc(kind))),
        Some(KindArg::Section) => Some(KindRequest::Section),
        None => None,
    }
}
