// Runs the script on standard input, which ends in a record that is none.

#![tactic(auto)]

use std::io;

fn main(rt: HostRuntime) -> io::Result<()> {
    replaying::drive(&rt)
}
