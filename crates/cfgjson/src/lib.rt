//! Errors and warnings as programs read them, on a line each: as JSON, as annotations of
//! GitHub, or as results of SARIF.
#![tactic(auto)]

pub mod annotation;
pub mod diagnostic;
pub mod laws;
pub mod lines;
mod object;
mod place;
pub mod sarif;
mod symbols;
mod uri;

pub use annotation::push_annotation;
pub use diagnostic::{Diagnostic, push_line};
pub use lines::{Diagnosed, annotation_lines, json_lines, result_lines};
pub use sarif::push_result;
