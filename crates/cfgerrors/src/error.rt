//! What is wrong with a Yacc file, and where.

ghost use Rattle.std.specs.Prelude.{◌≡◌, ◌↔◌, IsTrue, IfOk, Some};
ghost use Rattle.std.specs.Cmp.{partial_equiv_from_equiv};
ghost use Rattle.cfgerrors.specs.HeaderErrors.{error_view};
ghost use Rattle.cfgerrors.specs.Errors.{error_at, header_error, kind_view, same_error, same_error-equivalence};
ghost use Rattle.cfgerrors.specs.Errors.{spanskind_of};
ghost use Rattle.cfgerrors.specs.ErrorTexts.{error_text, fault_text};
ghost use Rattle.cfgerrors.specs.declared.error.YaccFault.TheVariants.{OutOfMemory};

use crate::header::{HeaderError, HeaderErrorKind};
use crate::parts::{write_lines, write_parts};
use cfgbase::{Span, Spanned, SpansKind};
use std::alloc::{AllocError, AllocFailed, Global};
use std::error::Error;
use std::fmt;
use std::marker::Model;

/// What is wrong with a Yacc file.
///
/// Of the declarations, `%token`, `%start`, `%left`, `%right`, `%nonassoc` and `%prec` are those of POSIX `yacc`;
/// `%expect`, `%expect-rr`, `%empty` and `%parse-param` are Bison's; and the others are grmtools's.
#[derive(Clone, Debug, Drop, PartialEq, Eq)]
pub enum YaccGrammarErrorKind {
    /// A number is missing, or too large.
    IllegalInteger,
    /// The name of a rule is missing.
    IllegalName,
    /// A token, or a symbol of a production, is missing.
    IllegalString,
    /// The text ends inside a rule.
    IncompleteRule,
    /// A block comment does not end.
    IncompleteComment,
    /// An action does not end.
    IncompleteAction,
    /// The colon after a rule's name is missing.
    MissingColon,
    /// The arrow before a rule's type is missing.
    MissingRightArrow,
    /// A brace has no counterpart. The reader never returns this.
    MismatchedBrace,
    /// A production has an `%empty` and is not empty.
    NonEmptyProduction,
    /// The text ends before the `%%` that opens the rules.
    PrematureEnd,
    /// Neither `|` nor `;` follows an action.
    ProductionNotTerminated,
    /// There are programs. The reader never returns this.
    ProgramsNotSupported,
    /// No declaration begins like this.
    UnknownDeclaration,
    /// No token follows a `%prec`. The reader never returns this.
    PrecNotFollowedByToken,
    /// The precedence of a token is declared more than once.
    DuplicatePrecedence,
    /// A token is given more than once in `%avoid_insert`.
    DuplicateAvoidInsertDeclaration,
    /// A token is given more than once in `%implicit_tokens`.
    DuplicateImplicitTokensDeclaration,
    /// `%expect` is declared more than once.
    DuplicateExpectDeclaration,
    /// `%expect-rr` is declared more than once.
    DuplicateExpectRRDeclaration,
    /// `%start` is declared more than once.
    DuplicateStartDeclaration,
    /// `%actiontype` is declared more than once.
    DuplicateActiontypeDeclaration,
    /// `%epp` is declared more than once for a token.
    DuplicateEPP,
    /// A line, or the text, ends inside a declaration.
    ReachedEOL,
    /// A string is not quoted, does not end, or escapes something other than a quote.
    InvalidString,
    /// There is no rule to start from.
    NoStartRule,
    /// Neither a rule nor a token is named where one must be.
    UnknownSymbol,
    /// The start rule, of this name, is not in the grammar.
    InvalidStartRule(String),
    /// The rule of this name is used, but is not in the grammar.
    UnknownRuleRef(String),
    /// The token of this name is used, but is not in the grammar.
    UnknownToken(String),
    /// The token of this name is used by a `%prec`, but has no precedence.
    NoPrecForToken(String),
    /// The token of this name has an `%epp`, but is not in the grammar.
    UnknownEPP(String),
    /// This character is missing. The reader never returns this.
    ExpectedInput(char),
    /// There is no such kind of Yacc. The reader never returns this.
    InvalidYaccKind,
    /// What is wrong with the `%grmtools` section, and what the spans mean.
    Header(HeaderErrorKind, SpansKind),
    /// The index type cannot count the rules, tokens, productions or symbols.
    StorageTooSmall,
}

impl fmt::Display for YaccGrammarErrorKind {
    ghost output = { λ kind. Some (error_text (kind_view kind)) };

    ghost styled_output = { λ kind _. Some (error_text (kind_view kind)) };

    #[tactic(auto, unfolding(crate::specs::ErrorTexts::error_text))]
    fn fmt<W: fmt::Write>(&self, f: &mut fmt::Formatter<W>) -> fmt::Result {
        let text = match self {
            Self::IllegalInteger => "Illegal integer",
            Self::IllegalName => "Illegal name",
            Self::IllegalString => "Illegal string",
            Self::IncompleteRule => "Incomplete rule",
            Self::IncompleteComment => "Incomplete comment",
            Self::IncompleteAction => "Incomplete action",
            Self::MissingColon => "Missing ':'",
            Self::MissingRightArrow => "Missing '->'",
            Self::MismatchedBrace => "Mismatched brace",
            Self::NonEmptyProduction => "%empty used in non-empty production",
            Self::PrematureEnd => "File ends prematurely",
            Self::ProductionNotTerminated => "Production not terminated correctly",
            Self::ProgramsNotSupported => "Programs not currently supported",
            Self::UnknownDeclaration => "Unknown declaration",
            Self::PrecNotFollowedByToken => "%prec not followed by token name",
            Self::DuplicatePrecedence => "Token has multiple precedences specified",
            Self::DuplicateAvoidInsertDeclaration => "Duplicated %avoid_insert declaration",
            Self::DuplicateImplicitTokensDeclaration => "Duplicated %implicit_tokens declaration",
            Self::DuplicateExpectDeclaration => "Duplicated %expect declaration",
            Self::DuplicateExpectRRDeclaration => "Duplicate %expect-rr declaration",
            Self::DuplicateStartDeclaration => "Duplicated %start declaration",
            Self::DuplicateActiontypeDeclaration => "Duplicate %actiontype declaration",
            Self::DuplicateEPP => "Duplicate %epp declaration for this token",
            Self::ReachedEOL => "Reached end of line without finding expected content",
            Self::InvalidString => "Invalid string",
            Self::NoStartRule => "No start rule specified",
            Self::UnknownSymbol => "Unknown symbol, expected a rule or token",
            Self::InvalidStartRule(name) => {
                return write_parts(f, "Start rule '", name, "' does not appear in grammar");
            }
            Self::UnknownRuleRef(name) => {
                return write_parts(f, "Unknown reference to rule '", name, "'");
            }
            Self::UnknownToken(name) => return write_parts(f, "Unknown token '", name, "'"),
            Self::NoPrecForToken(name) => {
                return write_parts(
                    f,
                    "Token '",
                    name,
                    "' used in %prec has no precedence attached",
                );
            }
            Self::UnknownEPP(name) => {
                return write_parts(
                    f,
                    "Token '",
                    name,
                    "' in %epp declaration is not referenced in the grammar",
                );
            }
            Self::ExpectedInput(character) => {
                let mut bytes = [0; 4];
                return write_parts(
                    f,
                    "Expected input '",
                    character.encode_utf8(&mut bytes),
                    "'",
                );
            }
            Self::InvalidYaccKind => "Invalid yacc kind",
            Self::Header(kind, _) => {
                f.write_str("Error in '%grmtools' ")?;
                return kind.fmt(f);
            }
            Self::StorageTooSmall => "Index type too small for this grammar",
        };
        f.write_str(text)
    }
}

/// An error in a Yacc file: what is wrong, and where.
#[derive(Debug, Drop)]
pub struct YaccGrammarError {
    kind: YaccGrammarErrorKind,
    spans: Vec<Span>,
}

impl Model for YaccGrammarError {
    ghost use Rattle.cfgerrors.specs.Errors.{GrammarError, kind_view};

    ghost Value = { GrammarError };

    ghost view = { λ e. record { kind = kind_view e.kind; spans = e.spans.items } };
}

impl YaccGrammarError {
    /// An error at these spans. For a duplicate, the first is the original's, and the others are its repeats'.
    pub fn new(kind: YaccGrammarErrorKind, spans: Vec<Span>) -> Self
        ensures { result ≡ record { kind = kind_view kind; spans = spans.items } }
    {
        YaccGrammarError { kind, spans }
    }

    /// What is wrong.
    pub fn kind(&self) -> &YaccGrammarErrorKind
        ensures { kind_view result.now ≡ self.now.kind }
    {
        &self.kind
    }
}

/// An error at one span, as readers make it.
///
/// # Errors
///
/// `AllocError` if an allocation fails.
pub fn error_at(
    alloc: Global,
    kind: YaccGrammarErrorKind,
    span: Span,
) -> Result<YaccGrammarError, AllocError>
    ensures { IfOk result (λ error. error ≡ error_at (kind_view kind) span) }
{
    let mut spans = Vec::new(alloc);
    spans.push(span)?;
    Ok(YaccGrammarError::new(kind, spans))
}

/// An error in a section as an error of the whole file, at the same spans. It allocates nothing.
impl From<HeaderError<Span>> for YaccGrammarError {
    ghost from_gives = { λ error whole. whole ≡ header_error (error_view error) };

    fn from(error: HeaderError<Span>) -> YaccGrammarError {
        let spanskind = error.spanskind();
        let kind = YaccGrammarErrorKind::Header(error.kind, spanskind);
        YaccGrammarError::new(kind, error.locations)
    }
}

impl PartialEq for YaccGrammarError {
    ghost eq = { same_error };

    ghost laws = { partial_equiv_from_equiv same_error-equivalence };

    fn eq(&self, other: &Self) -> bool
        ensures value { result ≡ same_error self.now other.now }
        ensures same { IsTrue result ↔ (self.now ≡ other.now) }
    {
        self.kind == other.kind && self.spans == other.spans
    }
}

impl Eq for YaccGrammarError {
    ghost laws = { same_error-equivalence };
}

impl Clone for YaccGrammarError {
    ghost is_clone = { λ x y. y ≡ x };

    fn clone(&self) -> Result<Self, AllocError> {
        Ok(YaccGrammarError {
            kind: self.kind.clone()?,
            spans: self.spans.clone()?,
        })
    }
}

impl fmt::Display for YaccGrammarError {
    ghost output = { λ e. Some (error_text e.kind) };

    ghost styled_output = { λ e _. Some (error_text e.kind) };

    fn fmt<W: fmt::Write>(&self, f: &mut fmt::Formatter<W>) -> fmt::Result {
        self.kind.fmt(f)
    }
}

impl Error for YaccGrammarError {}

impl Spanned for YaccGrammarError {
    ghost spans = { λ e. e.spans };

    ghost spanskind = { λ e. spanskind_of e.kind };

    fn spans(&self) -> &[Span] {
        self.spans.as_slice()
    }

    fn spanskind(&self) -> SpansKind {
        match self.kind {
            YaccGrammarErrorKind::DuplicatePrecedence
            | YaccGrammarErrorKind::DuplicateAvoidInsertDeclaration
            | YaccGrammarErrorKind::DuplicateImplicitTokensDeclaration
            | YaccGrammarErrorKind::DuplicateExpectDeclaration
            | YaccGrammarErrorKind::DuplicateExpectRRDeclaration
            | YaccGrammarErrorKind::DuplicateStartDeclaration
            | YaccGrammarErrorKind::DuplicateActiontypeDeclaration
            | YaccGrammarErrorKind::DuplicateEPP => SpansKind::DuplicationError,
            YaccGrammarErrorKind::Header(_, spanskind) => spanskind,
            _ => SpansKind::Error,
        }
    }
}

/// Why the text of a Yacc file was not read.
#[derive(Debug, Drop)]
pub enum YaccFault {
    /// The text has these errors, at least one.
    Errors(Vec<YaccGrammarError>),
    /// Out of memory. This says nothing about the text.
    OutOfMemory,
}

impl fmt::Display for YaccFault {
    ghost output = { λ fault. Some (fault_text fault) };

    ghost styled_output = { λ fault _. Some (fault_text fault) };

    fn fmt<W: fmt::Write>(&self, f: &mut fmt::Formatter<W>) -> fmt::Result {
        match self {
            YaccFault::Errors(errors) => write_lines(f, errors),
            YaccFault::OutOfMemory => f.write_str("out of memory"),
        }
    }
}

impl Error for YaccFault {}

impl From<AllocError> for YaccFault {
    ghost from_gives = { λ _ fault. fault ≡ OutOfMemory };

    fn from(_refused: AllocError) -> YaccFault {
        YaccFault::OutOfMemory
    }
}

impl<T: Drop> From<AllocFailed<T>> for YaccFault {
    ghost from_gives = { λ _ fault. fault ≡ OutOfMemory };

    fn from(_refused: AllocFailed<T>) -> YaccFault {
        YaccFault::OutOfMemory
    }
}

/// The result of reading a Yacc file.
pub type YaccGrammarResult<T> = Result<T, YaccFault>;
