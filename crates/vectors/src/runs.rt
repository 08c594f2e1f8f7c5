//! Runs and reports of `cfgtool`, also on outputs that take little.

use crate::narrow::Narrow;
use crate::page::Page;
use cfgrammar::yacc::YaccKind;
use cfgtool::arguments::command_of;
use cfgtool::{Counted, Input, KindArg, Sink, Source, report, report_lex, run};
use std::alloc::Global;
use std::io::ErrorKind;

/// The text of row `one-rule`.
const RULE: &str = "%start R %token T %% R: 'T';";

/// Two files, whatever they are named: the one that is fetched first, and the next one.
#[derive(Drop)]
struct Files<'a> {
    alloc: Global,
    texts: [Option<&'a str>; 2],
}

impl Source for Files<'_> {
    fn fetch(&mut self, _name: &str) -> Input {
        let [text, next] = self.texts;
        self.texts = [next, None];
        match text {
            Some(text) => match text.as_bytes().to_vec(self.alloc) {
                Ok(bytes) => Input::Bytes(bytes),
                Err(_) => Input::OutOfMemory,
            },
            None => Input::Unreadable,
        }
    }
}

/// Writes what a run over two files and two outputs writes, and its status.
fn write_ended(
    page: &mut Page,
    args: &[&str],
    texts: [Option<&str>; 2],
    output: &mut Narrow,
    errors: &mut Narrow,
) {
    let (alloc, mut files) = (
        page.alloc,
        Files {
            alloc: page.alloc,
            texts,
        },
    );
    let mut to_output = Counted::new(&mut *output);
    let mut to_errors = Counted::new(&mut *errors);
    let status = run(alloc, args, &mut files, &mut to_output, &mut to_errors);
    let (faults, more) = (to_output.faults(), to_errors.faults());
    writeln!(
        page,
        "cfgtool {args:?}: status {status}, {faults} and {more} faults"
    );
    write_taken(page, "output", output);
    write_taken(page, "errors", errors);
}

/// Writes what a run whose outputs take all bytes writes, and its status.
pub(crate) fn write_run(page: &mut Page, args: &[&str], text: &str, names: Option<&str>) {
    let (mut output, mut errors) = (Narrow::wide(page.alloc), Narrow::wide(page.alloc));
    write_ended(page, args, [Some(text), names], &mut output, &mut errors);
}

/// Writes the bytes that a writer took.
fn write_taken(page: &mut Page, name: &str, taken: &Narrow) {
    match std::str::from_utf8(taken.taken.as_slice()) {
        Ok(_) if taken.wants_memory => page.tear(),
        Ok("") => {}
        Ok(text) => writeln!(page, "{name}:\n{text}|"),
        Err(_) => writeln!(page, "{name}: no text"),
    }
}

/// Row `lexer-lines`: what is written of the names in a second file.
pub(crate) fn write_lexer_lines(page: &mut Page) {
    let args = ["original-genericparsetree", "lex", "-", "names"];
    let tail = "%start S %% S: B C 'd'; B: 'b'; C: 'c' | ;";
    writeln!(page, "\n== lexer-lines");
    write_run(page, &args, tail, Some("b\nq\nd"));
    write_run(page, &args, RULE, Some("T\r\n\r\n T\nU\nU"));
}

/// Writes reports and runs on outputs that take few bytes, or few at a time, and then fail or take nothing.
pub(crate) fn write_failing(page: &mut Page) {
    for end in [
        (5, 1000, Some(ErrorKind::BrokenPipe)),
        (5, 4, Some(ErrorKind::Interrupted)),
        (5, 1000, None),
        (0, 1000, Some(ErrorKind::StorageFull)),
        (1000, 1, None),
    ] {
        let (room, step, fault) = end;
        writeln!(
            page,
            "\n== outputs of {room} bytes, {step} at a time, then {fault:?}"
        );
        write_reports(page, end);
        write_failing_runs(page, end);
    }
}

/// Writes how `report` and `report_lex` end on such an output.
fn write_reports(page: &mut Page, end: (usize, usize, Option<ErrorKind>)) {
    for (command, text) in [("grammar", RULE), ("firsts", "%% A: C;"), ("lex", RULE)] {
        let mut output = Narrow::new(page.alloc, end);
        write_report(page, command, text, &mut output);
        write_taken(page, "output", &output);
    }
}

/// Writes how a report on a text ends, and how many faults its output had.
fn write_report(page: &mut Page, command: &str, text: &str, output: &mut Narrow) {
    let (kind, mut counted) = (KindArg::Named(YaccKind::Eco), Counted::new(output));
    let ended = match command_of(command) {
        Some(command) => report(page.alloc, kind, command, text, &mut counted),
        None => report_lex(page.alloc, kind, text, "U", &mut counted),
    };
    writeln!(
        page,
        "report {command}: {ended:?}, {} faults",
        counted.faults()
    );
}

/// Writes the beginning of what `sentences` writes, which may be long.
pub(crate) fn write_beginning(page: &mut Page, kind: &str, text: &str) {
    let args = [kind, "sentences", "-"];
    let end = (62, 1000, Some(ErrorKind::BrokenPipe));
    write_narrow_run(page, &args, Some(text), end);
}

/// Writes how runs end if both of their outputs are such ones: of a file, and of one that can't be read.
fn write_failing_runs(page: &mut Page, end: (usize, usize, Option<ErrorKind>)) {
    let args = ["eco", "grammar", "a.y"];
    write_narrow_run(page, &args, Some(RULE), end);
    write_narrow_run(page, &args, None, end);
}

/// Writes how a run ends if both of its outputs are such ones.
fn write_narrow_run(
    page: &mut Page,
    args: &[&str],
    text: Option<&str>,
    end: (usize, usize, Option<ErrorKind>),
) {
    let (mut output, mut errors) = (Narrow::new(page.alloc, end), Narrow::new(page.alloc, end));
    write_ended(page, args, [text, None], &mut output, &mut errors);
}
