// What tacbook does, on a script of sixteen owners over several years with corrections.
#![tactic(auto)]

use office::serve_script;

fn main(rt: HostRuntime) -> anyhow::Result<()> {
    serve_script(&rt, None)
}
