//! What `==` and `clone` of outcomes, faults and reasons compare and copy. They are derived, so each law names the
//! impl, as in `⟦<Outcome as PartialEq>⟧`, and holds for every value.

ghost use Rattle.std.specs.Prelude.{◌≡◌, ◌↔◌, IsTrue};
ghost use Rattle.cfgsink.specs.declared.outcome.Outcome.{Outcome};
ghost use Rattle.cfgsink.specs.declared.outcome.ReportFault.{ReportFault};
ghost use Rattle.cfgsink.specs.declared.sink.SinkFault.{SinkFault};
ghost use Rattle.cfgsink.specs.declared.sink.WriteError.{WriteError};

use crate::outcome::{Outcome, ReportFault};
use crate::sink::{SinkFault, WriteError};

/// Two outcomes, faults or reasons are equal exactly if they are the same. A clone equals its source and allocates
/// nothing.
pub fn outcomes_are_distinct()
    ensures equal { (a b : Outcome) → IsTrue (⟦<Outcome as PartialEq>⟧.eq a b) ↔ (a ≡ b) }
    ensures clone { (a b : Outcome) → ⟦<Outcome as Clone>⟧.is_clone a b → b ≡ a }
    ensures cloned { (a : Outcome) → ⟦<Outcome as Clone>⟧.is_infallible a }
    ensures equal_faults { (a b : ReportFault) → IsTrue (⟦<ReportFault as PartialEq>⟧.eq a b) ↔ (a ≡ b) }
    ensures clone_fault { (a b : ReportFault) → ⟦<ReportFault as Clone>⟧.is_clone a b → b ≡ a }
    ensures cloned_fault { (a : ReportFault) → ⟦<ReportFault as Clone>⟧.is_infallible a }
    ensures equal_sinks { (a b : SinkFault) → IsTrue (⟦<SinkFault as PartialEq>⟧.eq a b) ↔ (a ≡ b) }
    ensures cloned_sink { (a : SinkFault) → ⟦<SinkFault as Clone>⟧.is_infallible a }
    ensures equal_reasons { (a b : WriteError) → IsTrue (⟦<WriteError as PartialEq>⟧.eq a b) ↔ (a ≡ b) }
    ensures clone_reason { (a b : WriteError) → ⟦<WriteError as Clone>⟧.is_clone a b → b ≡ a }
    ensures cloned_reason { (a : WriteError) → ⟦<WriteError as Clone>⟧.is_infallible a }
{}
