//! The arguments that name a kind of Yacc.

ghost use Rattle.std.specs.Prelude.{◌≡◌};
ghost use Rattle.cfgprogram.specs.Kinds.{kind_name, kind_named};
ghost use Rattle.cfgprogram.specs.declared.kinds.KindArg.TheVariants.{Named};

pub use cfgrammar::yacc::{YaccKind, YaccOriginalActionKind};

/// The kind of Yacc that a text is read as.
#[derive(Clone, Copy, Debug, PartialEq, Eq)]
pub enum KindArg {
    /// This kind.
    Named(YaccKind),
    /// The kind that the section of the text names.
    Section,
}

/// The kind that an argument names, byte for byte.
pub fn kind_of(argument: &str) -> Option<KindArg>
    ensures { result ≡ kind_named argument.now }
{
    let kind = match argument {
        "original-noaction" => YaccKind::Original(YaccOriginalActionKind::NoAction),
        "original-useraction" => YaccKind::Original(YaccOriginalActionKind::UserAction),
        "original-genericparsetree" => YaccKind::Original(YaccOriginalActionKind::GenericParseTree),
        "grmtools" => YaccKind::Grmtools,
        "eco" => YaccKind::Eco,
        "section" => return Some(KindArg::Section),
        _ => return None,
    };
    Some(KindArg::Named(kind))
}

/// The argument that names this kind.
pub fn kind_name(kind: YaccKind) -> &'static str
    ensures name { result.now ≡ kind_name kind }
    ensures named { kind_named result.now ≡ Some (Named kind) }
{
    match kind {
        YaccKind::Original(YaccOriginalActionKind::NoAction) => "original-noaction",
        YaccKind::Original(YaccOriginalActionKind::UserAction) => "original-useraction",
        YaccKind::Original(YaccOriginalActionKind::GenericParseTree) => "original-genericparsetree",
        YaccKind::Grmtools => "grmtools",
        YaccKind::Eco => "eco",
    }
}
