//! How the program is used, and what is wrong with arguments.

ghost use Rattle.std.specs.Prelude.{◌≡◌, ◌++◌, IfOk, OnOk, codes, map, string_bytes};
ghost use Rattle.std.specs.List.{flat_map};
ghost use Rattle.cfgnear.specs.Nearest.{nearest};
ghost use Rattle.cfglint_shell.specs.Inner.{usage_error_view};
ghost use Rattle.cfglint_shell.specs.Requests.{choice, listed_names, option_name, option_named, option_part};
ghost use Rattle.cfglint_shell.specs.Requests.{unknown_text, usage, usage_error_text};

use cfgnear::nearest;
use cfgrammar::Visible;
use std::alloc::{AllocError, Global};

/// How the program is used; it is printed if the arguments are wrong.
pub(crate) const USAGE: &str = "usage: cfglint [OPTION..] [--] FILE..\n";

/// What is printed if an argument isn't UTF-8.
pub(crate) const NOT_UTF8: &str =
    "cfglint: an argument is not UTF-8\nusage: cfglint [OPTION..] [--] FILE..\n";

/// What is printed for `--version`.
pub(crate) const VERSION: &str = "cfglint 0.15.0\n";

/// What is printed for `--help`.
pub(crate) const HELP: &str =
    "cfglint reports errors in Yacc grammar files, and warnings about their grammars.

usage: cfglint [OPTION..] [--] FILE..

  --kind KIND        bison or yacc, the same: as Bison reads files; original-noaction, original-useraction,
                     original-genericparsetree, grmtools, eco; or section (the kind that the file's section names).
                     Without it the section names the kind; a file that names none is read as the default kind.
  --default-kind KIND
                     The default kind, any but section. Without it a file that names no kind is read as
                     original-noaction; if it then has errors, and something that only Bison's files have, such as %{
                     or %union, it is read as bison.
  --format FORMAT    text, the default; json: a line with a JSON object for each error and warning; github: a line
                     with a workflow command for each, which GitHub shows at its place; or sarif: a log in SARIF 2.1.0.
                     Only text has a summary.
  --columns UNIT     What a column of text counts from 1: bytes, characters, the default, or display: columns of a
                     terminal, of which wide characters take two, and tabs those up to the next multiple of 8.
  --color WHEN       Colours severities in text: always, never, or auto, the default: if standard output is a terminal,
                     and the variable NO_COLOR is unset or empty.
  --states           Writes the states of the parser after the findings, for reading a conflict by hand. Only text has
                     them.
  --allow FINDING    Findings of this kind aren't reported.
  --warn FINDING     Findings of this kind are warnings.
  --deny FINDING     Findings of this kind are errors.
  --deny-warnings    Warnings end with status 1 too.
  --quiet            Writes no summary.
  --stdin-name NAME  Standard input is reported under this name.
  -h, --help         Writes this.
  --version          Writes the version.
  --                 What follows are files.
  FILE               A path, or - for standard input, which can be given once.

FINDING is all, for each kind, or one of these. Without these options those that say so are errors or aren't reported,
and the others are warnings. If a finding is given to several of these options, the last one wins.

  unused-rule             a rule that can't be reached from the start rule
  unused-token            a token that can't be reached from it, and that no %prec names
  shadowed-rule           a rule that is never used, since its name is that of a token
  start-without-sentence  a start rule from which no sentence can be derived: an error
  no-sentence             another rule from which no sentence can be derived
  unusable-rule           a rule without a sentence since others have none: not reported
  unusable-production     a production with a rule that has no sentence: not reported
  useless-symbol          a rule or token that only unusable productions reach: not reported
  cyclic-rule             a rule that derives itself
  repeated-production     a production with the symbols of an earlier one of its rule
  unused-precedence       a precedence of a token that no production needs
  repeated-token          a token that a %token list has a second time
  overridden-precedence   a %prec that a later one of its production overrides
  glued-keyword           a name that directly follows a keyword, as in %tokens X
  needless-expect-unused  a symbol of an %expect-unused that is used
  escaped-token           a token whose name begins with a backslash: not reported
  implicit-empty          an empty production without %empty: not reported
  shift-reduce            a production that may be reduced where the next token may also be shifted
  reduce-reduce           a production that may be reduced where an earlier one may be too
  unmet-expect            an %expect or %expect-rr with another number of conflicts than there are: an error
  undefined-precedence    a production whose %prec names a token without a precedence
  missing-empty           an empty production without %empty, which others have
  swallowed-rule          a rule whose type goes on to the type of the next one
  unknown-key             a key of a section that nothing looks for
  unknown-reference       an action's $6 or @6 where fewer symbols come before it: an error
  unread-value            an action inside of a production that sets $$, which no later action reads
  misspelled-define       a %define whose variable or value is near to one that Bison knows
  repeated-alias          an alias of a %token list that a token has already
  stray-comma             a comma between words of a Bison file, where it is a blank

--kind=KIND is --kind KIND, and so on.

status: 0 without errors or denied warnings; 1 with either; 2 if the arguments are wrong, a file can't be read or
the output can't be written; 3 if there is no memory left
";

/// An option that has a value.
#[derive(Clone, Copy)]
pub(crate) enum ValueOption {
    Kind,
    DefaultKind,
    Format,
    Columns,
    Color,
    Allow,
    Warn,
    Deny,
    StdinName,
}

impl ValueOption {
    /// The option with this name.
    pub(crate) fn of_name(name: &str) -> Option<ValueOption>
        ensures { result ≡ option_named name.now }
    {
        let option = match name {
            "--kind" => ValueOption::Kind,
            "--default-kind" => ValueOption::DefaultKind,
            "--format" => ValueOption::Format,
            "--columns" => ValueOption::Columns,
            "--color" => ValueOption::Color,
            "--allow" => ValueOption::Allow,
            "--warn" => ValueOption::Warn,
            "--deny" => ValueOption::Deny,
            "--stdin-name" => ValueOption::StdinName,
            _ => return None,
        };
        Some(option)
    }

    /// The name of the option.
    fn name(self) -> &'static str
        ensures { result.now ≡ option_name self }
    {
        match self {
            ValueOption::Kind => "--kind",
            ValueOption::DefaultKind => "--default-kind",
            ValueOption::Format => "--format",
            ValueOption::Columns => "--columns",
            ValueOption::Color => "--color",
            ValueOption::Allow => "--allow",
            ValueOption::Warn => "--warn",
            ValueOption::Deny => "--deny",
            ValueOption::StdinName => "--stdin-name",
        }
    }
}

/// What is wrong with arguments.
#[derive(Clone, Copy)]
pub(crate) enum UsageError<'a> {
    /// There is no such option.
    UnknownOption(&'a str),
    /// This value of `--kind` names no kind.
    UnknownKind(&'a str),
    /// This value of `--default-kind` names no kind, or the one that a section names.
    UnknownDefaultKind(&'a str),
    /// This value of `--format` names no format.
    UnknownFormat(&'a str),
    /// This value of `--columns` names no unit.
    UnknownUnit(&'a str),
    /// This value of `--color` doesn't say when severities are coloured.
    UnknownColor(&'a str),
    /// This value of `--allow`, `--warn` or `--deny` names no kind of finding.
    UnknownFinding(&'a str),
    /// No value follows the option.
    MissingValue(ValueOption),
    /// No file is given.
    NoFile,
    /// More than one of the files is standard input.
    StandardInputTwice,
}

impl UsageError<'_> {
    /// The line that says so, and the usage.
    pub(crate) fn text(&self, alloc: Global) -> Result<String, AllocError>
        ensures { IfOk result (λ text. string_bytes text ≡ usage_error_text (usage_error_view self.now) ++ usage) }
    {
        match *self {
            UsageError::UnknownOption(option) => {
                unknown(alloc, "option", option, option_part(option), &OPTIONS)
            }
            UsageError::UnknownKind(kind) => unknown(alloc, "kind", kind, kind, &KINDS),
            UsageError::UnknownDefaultKind(kind) => {
                unknown(alloc, "default kind", kind, kind, &DEFAULT_KINDS)
            }
            UsageError::UnknownFormat(format) => {
                unknown(alloc, "format", format, format, &FORMATS)
            }
            UsageError::UnknownUnit(unit) => unknown(alloc, "unit", unit, unit, &UNITS),
            UsageError::UnknownColor(color) => {
                unknown(alloc, "color choice", color, color, &COLOR_CHOICES)
            }
            UsageError::UnknownFinding(finding) => {
                unknown(alloc, "finding", finding, finding, &FINDINGS)
            }
            UsageError::MissingValue(option) => {
                let name = option.name();
                format!(in alloc; "cfglint: option '{name}' needs a value\n{USAGE}")
            }
            UsageError::NoFile => format!(in alloc; "cfglint: no file is given\n{USAGE}"),
            UsageError::StandardInputTwice => {
                format!(in alloc; "cfglint: standard input is given twice\n{USAGE}")
            }
        }
    }
}

/// The part of an argument before its first `=`, or all of it.
pub(crate) fn option_part(argument: &str) -> &str
    ensures { result.now ≡ option_part argument.now }
{
    match argument.split_once('=') {
        Some((name, _)) => name,
        None => argument,
    }
}

/// The line on a word that is none of these names, and the usage: the nearest name to `name`, or else all of them.
fn unknown(
    alloc: Global,
    what: &str,
    word: &str,
    name: &str,
    names: &[&str],
) -> Result<String, AllocError>
    ensures { IfOk result (λ text. string_bytes text
        ≡ unknown_text what.now word.now name.now (map (λ name. name.now) names.now) ++ usage) }
{
    let word = Visible(word);
    let mut text = format!(in alloc; "cfglint: unknown {what} '{word}': ")?;
    push_choice(alloc, &mut text, what, name, names)?;
    write!(text, "\n{USAGE}")?;
    Ok(text)
}

/// Writes the question whether the nearest of the names is meant, or all of them if none is near.
fn push_choice(
    alloc: Global,
    text: &mut String,
    what: &str,
    name: &str,
    names: &[&str],
) -> Result<(), AllocError>
    ensures { OnOk result (string_bytes text.new ≡ string_bytes text.old
        ++ choice what.now (map (λ name. name.now) names.now)
        (nearest name.now (map (λ name. name.now) names.now))) }
{
    match nearest(alloc, name, names)? {
        Some(near) => write!(text, "did you mean '{near}'?"),
        None => {
            write!(text, "the {what}s are ")?;
            push_listed(text, names)
        }
    }
}

/// Writes names with commas between them.
fn push_listed(text: &mut String, names: &[&str]) -> Result<(), AllocError>
    ensures { OnOk result (string_bytes text.new
        ≡ string_bytes text.old ++ listed_names (map (λ name. name.now) names.now)) }
{
    let [first, rest @ ..] = names else {
        return Ok(());
    };
    text.push_str(first)?;
    push_rest(text, rest)
}

/// Writes names, each after a comma.
fn push_rest(text: &mut String, names: &[&str]) -> Result<(), AllocError>
    ensures { OnOk result (string_bytes text.new
        ≡ string_bytes text.old ++ flat_map (λ name. codes ", " ++ name) (map (λ name. name.now) names.now)) }
{
    for name in names {
        write!(text, ", {name}")?;
    }
    Ok(())
}

/// The options.
const OPTIONS: [&str; 14] = [
    "--kind",
    "--default-kind",
    "--format",
    "--columns",
    "--color",
    "--allow",
    "--warn",
    "--deny",
    "--deny-warnings",
    "--states",
    "--quiet",
    "--stdin-name",
    "--help",
    "--version",
];

/// The values of `--kind`.
const KINDS: [&str; 8] = [
    "original-noaction",
    "original-useraction",
    "original-genericparsetree",
    "grmtools",
    "eco",
    "bison",
    "yacc",
    "section",
];

/// The values of `--default-kind`.
const DEFAULT_KINDS: [&str; 7] = [
    "original-noaction",
    "original-useraction",
    "original-genericparsetree",
    "grmtools",
    "eco",
    "bison",
    "yacc",
];

/// The values of `--format`.
const FORMATS: [&str; 4] = ["text", "json", "github", "sarif"];

/// The values of `--columns`.
const UNITS: [&str; 3] = ["bytes", "characters", "display"];

/// The values of `--color`.
const COLOR_CHOICES: [&str; 3] = ["auto", "always", "never"];

/// The values of `--allow`, `--warn` and `--deny`.
const FINDINGS: [&str; 30] = [
    "unused-rule",
    "unused-token",
    "shadowed-rule",
    "start-without-sentence",
    "no-sentence",
    "unusable-rule",
    "unusable-production",
    "useless-symbol",
    "cyclic-rule",
    "repeated-production",
    "unused-precedence",
    "repeated-token",
    "overridden-precedence",
    "glued-keyword",
    "needless-expect-unused",
    "escaped-token",
    "implicit-empty",
    "shift-reduce",
    "reduce-reduce",
    "unmet-expect",
    "undefined-precedence",
    "missing-empty",
    "swallowed-rule",
    "unknown-key",
    "unknown-reference",
    "unread-value",
    "misspelled-define",
    "repeated-alias",
    "stray-comma",
    "all",
];
