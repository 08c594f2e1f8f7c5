//! The program `cfgtool`. All that it does is in the library, here run over the system's runtime.
#![tactic(auto)]

use cfgtool::{Ended, run_over};

fn main(rt: HostRuntime) -> Ended {
    run_over(&rt)
}
