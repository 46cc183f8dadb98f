// What tacbook does, on a script that meets every refusal that a call can meet.
#![tactic(auto)]

use office::serve_script;

fn main(rt: HostRuntime) -> anyhow::Result<()> {
    serve_script(&rt, None)
}
