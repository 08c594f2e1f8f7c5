//! The program `cfglint`. All that it does is in the library, here run over the system's runtime.
#![tactic(auto)]

use cfglint::{Ended, run_over};
use std::io::IsTerminal;

fn main(rt: HostRuntime) -> Ended {
    run_over(&rt, rt.stdout().is_terminal())
}
