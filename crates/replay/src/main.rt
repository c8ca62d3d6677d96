// Runs the script on standard input: every public call, on good and on damaged stores.

#![tactic(auto)]

use std::io;

fn main(rt: HostRuntime) -> io::Result<()> {
    replaying::drive(&rt)
}
