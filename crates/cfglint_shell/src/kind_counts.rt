//! How many files were read as each kind.

ghost use Rattle.std.specs.Prelude.{◌≡◌, ◌-◌, ◌^◌, ◌<◌};
ghost use Rattle.cfglint_shell.specs.KindCounts.{all_counted, count_of, no_kinds, with_kind};

use crate::file_kind::FileKind;
use cfgprogram::kinds::{YaccKind, YaccOriginalActionKind};

/// How many files were read as each kind.
#[derive(Clone, Copy)]
pub(crate) struct KindCounts {
    original_noaction: u64,
    original_useraction: u64,
    original_genericparsetree: u64,
    grmtools: u64,
    eco: u64,
    bison: u64,
}

impl KindCounts {
    /// Before the first file.
    pub(crate) fn new() -> Self
        ensures { result ≡ no_kinds }
    {
        KindCounts {
            original_noaction: 0,
            original_useraction: 0,
            original_genericparsetree: 0,
            grmtools: 0,
            eco: 0,
            bison: 0,
        }
    }

    /// How many files were read as this kind.
    pub(crate) fn of(&self, kind: FileKind) -> u64
        ensures { result ≡ count_of self.now kind }
    {
        match kind {
            FileKind::Yacc(YaccKind::Original(YaccOriginalActionKind::NoAction)) => {
                self.original_noaction
            }
            FileKind::Yacc(YaccKind::Original(YaccOriginalActionKind::UserAction)) => {
                self.original_useraction
            }
            FileKind::Yacc(YaccKind::Original(YaccOriginalActionKind::GenericParseTree)) => {
                self.original_genericparsetree
            }
            FileKind::Yacc(YaccKind::Grmtools) => self.grmtools,
            FileKind::Yacc(YaccKind::Eco) => self.eco,
            FileKind::Bison => self.bison,
        }
    }

    /// Adds a file that was read as this kind, if it was read as one.
    pub(crate) fn add(&mut self, kind: Option<FileKind>)
        requires { all_counted self.old < 2 ^ 64 - 1 }
        ensures { self.new ≡ with_kind self.old kind }
    {
        match kind {
            Some(FileKind::Yacc(YaccKind::Original(YaccOriginalActionKind::NoAction))) => {
                self.original_noaction += 1
            }
            Some(FileKind::Yacc(YaccKind::Original(YaccOriginalActionKind::UserAction))) => {
                self.original_useraction += 1
            }
            Some(FileKind::Yacc(YaccKind::Original(YaccOriginalActionKind::GenericParseTree))) => {
                self.original_genericparsetree += 1
            }
            Some(FileKind::Yacc(YaccKind::Grmtools)) => self.grmtools += 1,
            Some(FileKind::Yacc(YaccKind::Eco)) => self.eco += 1,
            Some(FileKind::Bison) => self.bison += 1,
            None => {}
        }
    }
}
