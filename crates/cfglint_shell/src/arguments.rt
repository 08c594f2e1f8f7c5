//! What the program's arguments request.

ghost use Rattle.std.specs.Prelude.{◌≡◌, IfOk, codes, map};
ghost use Rattle.std.specs.List.{count_by};
ghost use Rattle.std.specs.Option.{option_map_or};
ghost use Rattle.std.specs.Str.{bytes_eq};
ghost use Rattle.cfglint_shell.specs.Inner.{options_view, requested_view, step_view, usage_error_view};
ghost use Rattle.cfglint_shell.specs.Requests.{at_end, has_summary, is_option, name_of, no_options, requested};
ghost use Rattle.cfglint_shell.specs.Requests.{requested_files};
ghost use Rattle.cfglint_shell.specs.Requests.{with_argument, with_expected, with_finding, with_option, with_value};
ghost use Rattle.cfglint_shell.specs.Requests as requests;

use crate::color_choice::ColorChoice;
use crate::file_kind::KindRequest;
use crate::format::Format;
use crate::linter::LintOptions;
use crate::unit::unit_of_word;
use crate::usage::{UsageError, ValueOption, option_part};
use cfgrammar::ColumnUnit;
use finding_kinds::{FindingKind, Level, Levels};
use std::alloc::{AllocError, Global};

/// What the arguments request.
#[derive(Drop)]
pub(crate) enum Requested<'a> {
    /// Something else than that files are linted.
    Stops(Stop<'a>),
    /// That files are linted.
    Lint(Options<'a>),
}

/// What the first argument requests that keeps files from being linted.
#[derive(Clone, Copy)]
pub(crate) enum Stop<'a> {
    /// How the program is used.
    Help,
    /// Its version.
    Version,
    /// Nothing: the arguments are wrong.
    Wrong(UsageError<'a>),
}

/// That these files are linted, in order.
#[derive(Drop)]
pub(crate) struct Options<'a> {
    pub(crate) lint: LintOptions,
    /// The name under which standard input is reported.
    pub(crate) stdin_name: &'a str,
    /// Whether warnings are denied.
    pub(crate) denies: bool,
    /// Whether the summary is left out.
    pub(crate) is_quiet: bool,
    pub(crate) files: Vec<&'a str>,
}

/// What is expected of the next argument.
#[derive(Clone, Copy)]
pub(crate) enum Expected {
    /// An option or a file.
    Argument,
    /// The value of this option.
    Value(ValueOption),
    /// A file.
    File,
}

/// What an argument does.
#[derive(Clone, Copy)]
pub(crate) enum Step<'a> {
    /// It is part of the options; this is expected of the next one.
    Goes(Expected),
    /// It decides what is requested.
    Stops(Stop<'a>),
}

/// What the arguments request.
///
/// # Errors
///
/// Running out of memory.
pub(crate) fn requested_by<'a>(
    alloc: Global,
    arguments: &[&'a str],
) -> Result<Requested<'a>, AllocError>
    ensures { IfOk result (λ x. requested_view x ≡ requested (map (λ argument. argument.now) arguments.now)) }
{
    let mut options = Options::new(alloc);
    let mut expected = Expected::Argument;
    for argument in arguments {
        match options.take(expected, argument)? {
            Step::Goes(next) => expected = next,
            Step::Stops(stop) => return Ok(Requested::Stops(stop)),
        }
    }
    match options.wrong_at_end(expected) {
        Some(error) => Ok(Requested::Stops(Stop::Wrong(error))),
        None => Ok(Requested::Lint(options)),
    }
}

impl<'a> Options<'a> {
    /// Before the first argument.
    fn new(alloc: Global) -> Self
        ensures { options_view result ≡ no_options }
    {
        Options {
            lint: LintOptions {
                kind: None,
                default_kind: None,
                levels: Levels::new(),
                format: Format::Text,
                columns: ColumnUnit::Characters,
                colors: false,
                shows_states: false,
            },
            stdin_name: "-",
            denies: false,
            is_quiet: false,
            files: Vec::new(alloc),
        }
    }

    /// The name under which a file is reported.
    pub(crate) fn name_of(&self, file: &'a str) -> &'a str
        ensures { result.now ≡ name_of (options_view self.now) file.now }
    {
        if file == "-" { self.stdin_name } else { file }
    }

    /// Whether the summary is written.
    pub(crate) fn has_summary(&self) -> bool
        ensures { result ≡ has_summary (options_view self.now) }
    {
        match self.lint.format {
            Format::Text => !self.is_quiet,
            Format::Json => false,
            Format::Github | Format::Sarif => false,
        }
    }

    /// What is wrong at the end of the arguments, if anything is.
    fn wrong_at_end(&self, expected: Expected) -> Option<UsageError<'a>>
        ensures { at_end (options_view self.now) expected ≡ option_map_or
            (λ error. requests.Wrong (usage_error_view error)) result (requests.Lint (options_view self.now)) }
    {
        match expected {
            Expected::Value(option) => Some(UsageError::MissingValue(option)),
            Expected::Argument | Expected::File => self.wrong_files(),
        }
    }

    /// What is wrong with the files, if anything is.
    fn wrong_files(&self) -> Option<UsageError<'a>>
        ensures { requested_files (options_view self.now) (options_view self.now).files ≡ option_map_or
            (λ error. requests.Wrong (usage_error_view error)) result (requests.Lint (options_view self.now)) }
    {
        if self.files.is_empty() {
            return Some(UsageError::NoFile);
        }
        (standard_inputs(&self.files) > 1).then_some(UsageError::StandardInputTwice)
    }

    /// Takes the next argument.
    fn take(&mut self, expected: Expected, argument: &'a str) -> Result<Step<'a>, AllocError>
        ensures { IfOk result (λ step. step_view (options_view self.new) step
            ≡ with_expected (options_view self.old) expected argument.now) }
    {
        match expected {
            Expected::Value(option) => Ok(self.take_value(option, argument)),
            Expected::Argument => self.take_argument(argument),
            Expected::File => {
                self.files.push(argument)?;
                Ok(Step::Goes(Expected::File))
            }
        }
    }

    /// Takes an option or a file.
    #[tactic(auto, unfolding(crate::specs::Requests::with_argument))]
    fn take_argument(&mut self, argument: &'a str) -> Result<Step<'a>, AllocError>
        ensures { IfOk result (λ step. step_view (options_view self.new) step
            ≡ with_argument (options_view self.old) argument.now) }
    {
        match argument {
            "-h" | "--help" => return Ok(Step::Stops(Stop::Help)),
            "--version" => return Ok(Step::Stops(Stop::Version)),
            "--" => return Ok(Step::Goes(Expected::File)),
            "--deny-warnings" => self.denies = true,
            "--quiet" => self.is_quiet = true,
            "--states" => self.lint.shows_states = true,
            option if is_option(option) => return Ok(self.take_option(option)),
            file => self.files.push(file)?,
        }
        Ok(Step::Goes(Expected::Argument))
    }

    /// Takes an option with a value, which follows an `=` or is the next argument.
    #[tactic(auto, unfolding(crate::specs::Requests::with_option))]
    fn take_option(&mut self, argument: &'a str) -> Step<'a>
        ensures { step_view (options_view self.new) result ≡ with_option (options_view self.old) argument.now }
    {
        let Some(option) = ValueOption::of_name(option_part(argument)) else {
            return Step::Stops(Stop::Wrong(UsageError::UnknownOption(argument)));
        };
        match argument.split_once('=') {
            Some((_, value)) => self.take_value(option, value),
            None => Step::Goes(Expected::Value(option)),
        }
    }

    /// Takes the value of an option.
    fn take_value(&mut self, option: ValueOption, value: &'a str) -> Step<'a>
        ensures { step_view (options_view self.new) result ≡ with_value (options_view self.old) option value.now }
    {
        match option {
            ValueOption::Kind => {
                let Some(kind) = KindRequest::of_word(value) else {
                    return Step::Stops(Stop::Wrong(UsageError::UnknownKind(value)));
                };
                self.lint.kind = Some(kind);
                Step::Goes(Expected::Argument)
            }
            ValueOption::DefaultKind => {
                let Some(KindRequest::Named(kind)) = KindRequest::of_word(value) else {
                    return Step::Stops(Stop::Wrong(UsageError::UnknownDefaultKind(value)));
                };
                self.lint.default_kind = Some(kind);
                Step::Goes(Expected::Argument)
            }
            ValueOption::Format => {
                let Some(format) = Format::of_word(value) else {
                    return Step::Stops(Stop::Wrong(UsageError::UnknownFormat(value)));
                };
                self.lint.format = format;
                Step::Goes(Expected::Argument)
            }
            ValueOption::Columns => {
                let Some(unit) = unit_of_word(value) else {
                    return Step::Stops(Stop::Wrong(UsageError::UnknownUnit(value)));
                };
                self.lint.columns = unit;
                Step::Goes(Expected::Argument)
            }
            ValueOption::Color => {
                let Some(choice) = ColorChoice::of_word(value) else {
                    return Step::Stops(Stop::Wrong(UsageError::UnknownColor(value)));
                };
                self.lint.colors = choice.colors(self.lint.colors);
                Step::Goes(Expected::Argument)
            }
            ValueOption::Allow => self.take_level(value, Level::Allow),
            ValueOption::Warn => self.take_level(value, Level::Warn),
            ValueOption::Deny => self.take_level(value, Level::Deny),
            ValueOption::StdinName => {
                self.stdin_name = value;
                Step::Goes(Expected::Argument)
            }
        }
    }

    /// Takes a kind of finding, or all kinds, to which it gives this level.
    fn take_level(&mut self, value: &'a str, level: Level) -> Step<'a>
        ensures { step_view (options_view self.new) result ≡ with_finding (options_view self.old) level value.now }
    {
        if value == "all" {
            self.lint.levels = Levels::all(level);
            return Step::Goes(Expected::Argument);
        }
        let Some(finding) = FindingKind::of_word(value) else {
            return Step::Stops(Stop::Wrong(UsageError::UnknownFinding(value)));
        };
        self.lint.levels.set(finding, level);
        Step::Goes(Expected::Argument)
    }
}

/// Whether the argument is an option.
fn is_option(argument: &str) -> bool
    ensures { result ≡ is_option argument.now }
{
    argument.starts_with('-') && argument != "-"
}

/// How many of the files are standard input.
fn standard_inputs(files: &[&str]) -> usize
    ensures { result ≡ count_by (λ file. bytes_eq file.now (codes "-")) files.now }
{
    files.iter().filter(|file| **file == "-").count()
}
