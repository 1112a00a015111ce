// The listing program, which ends with the status that it answers.
#![tactic(auto)]

use list_run::lellmusu_list_run;
use std::process::ExitCode;

fn main(rt: HostRuntime) -> ExitCode {
    ExitCode::from(lellmusu_list_run(&rt))
}
