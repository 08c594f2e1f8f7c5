//! Directives, by their names.

ghost use Rattle.std.specs.Prelude.{◌≡◌, map};
ghost use Rattle.bison_words.specs.Directives.{named, directive_named, takes_equals};
ghost use Rattle.bison_words.specs.Inner.Directives.{shown_row};

/// A directive: what the name after a `%` says.
#[derive(Clone, Copy)]
pub enum Directive {
    Token,
    Term,
    Nterm,
    /// `%type`.
    SymbolType,
    Left,
    Right,
    Nonassoc,
    Binary,
    Precedence,
    Start,
    Union,
    Code,
    Destructor,
    Printer,
    DefaultPrec,
    NoDefaultPrec,
    Debug,
    ErrorVerbose,
    FixedOutputFiles,
    GlrParser,
    Locations,
    NoLines,
    NondeterministicParser,
    PureParser,
    TokenTable,
    Verbose,
    Yacc,
    FilePrefix,
    Language,
    NamePrefix,
    Output,
    Require,
    Skeleton,
    Define,
    Defines,
    Expect,
    ExpectRr,
    Header,
    InitialAction,
    LexParam,
    Param,
    ParseParam,
    Prec,
    Empty,
    Dprec,
    Merge,
}

/// The names of directives after the `%`. Old ones may have `_` in place of any `-`.
const SPELLINGS: [(&str, Directive); 59] = [
    ("token", Directive::Token),
    ("term", Directive::Term),
    ("nterm", Directive::Nterm),
    ("type", Directive::SymbolType),
    ("left", Directive::Left),
    ("right", Directive::Right),
    ("nonassoc", Directive::Nonassoc),
    ("binary", Directive::Binary),
    ("precedence", Directive::Precedence),
    ("start", Directive::Start),
    ("union", Directive::Union),
    ("code", Directive::Code),
    ("destructor", Directive::Destructor),
    ("printer", Directive::Printer),
    ("default-prec", Directive::DefaultPrec),
    ("default_prec", Directive::DefaultPrec),
    ("no-default-prec", Directive::NoDefaultPrec),
    ("no-default_prec", Directive::NoDefaultPrec),
    ("no_default-prec", Directive::NoDefaultPrec),
    ("no_default_prec", Directive::NoDefaultPrec),
    ("debug", Directive::Debug),
    ("error-verbose", Directive::ErrorVerbose),
    ("error_verbose", Directive::ErrorVerbose),
    ("fixed-output-files", Directive::FixedOutputFiles),
    ("fixed-output_files", Directive::FixedOutputFiles),
    ("fixed_output-files", Directive::FixedOutputFiles),
    ("fixed_output_files", Directive::FixedOutputFiles),
    ("glr-parser", Directive::GlrParser),
    ("locations", Directive::Locations),
    ("no-lines", Directive::NoLines),
    ("no_lines", Directive::NoLines),
    ("nondeterministic-parser", Directive::NondeterministicParser),
    ("pure-parser", Directive::PureParser),
    ("pure_parser", Directive::PureParser),
    ("token-table", Directive::TokenTable),
    ("token_table", Directive::TokenTable),
    ("verbose", Directive::Verbose),
    ("yacc", Directive::Yacc),
    ("file-prefix", Directive::FilePrefix),
    ("language", Directive::Language),
    ("name-prefix", Directive::NamePrefix),
    ("name_prefix", Directive::NamePrefix),
    ("output", Directive::Output),
    ("require", Directive::Require),
    ("skeleton", Directive::Skeleton),
    ("define", Directive::Define),
    ("defines", Directive::Defines),
    ("expect", Directive::Expect),
    ("expect-rr", Directive::ExpectRr),
    ("expect_rr", Directive::ExpectRr),
    ("header", Directive::Header),
    ("initial-action", Directive::InitialAction),
    ("lex-param", Directive::LexParam),
    ("param", Directive::Param),
    ("parse-param", Directive::ParseParam),
    ("prec", Directive::Prec),
    ("empty", Directive::Empty),
    ("dprec", Directive::Dprec),
    ("merge", Directive::Merge),
];

/// What the table has for this name.
fn named(table: &[(&str, Directive)], name: &str) -> Option<Directive>
    ensures { result ≡ named (map shown_row table.now) name.now }
{
    for (spelling, directive) in table {
        if *spelling == name {
            return Some(*directive);
        }
    }
    None
}

/// The directive of this name.
pub fn directive_named(name: &str) -> Option<Directive>
    ensures { result ≡ directive_named name.now }
{
    named(&SPELLINGS, name)
}

impl Directive {
    /// Whether `=` may follow the directive.
    pub fn takes_equals(self) -> bool
        ensures { result ≡ takes_equals self }
    {
        matches!(
            self,
            Directive::FilePrefix | Directive::NamePrefix | Directive::Output
        )
    }
}
