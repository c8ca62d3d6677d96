// The printing program with no room.bun.

#![tactic(auto)]

use std::io;

fn main(rt: HostRuntime) -> io::Result<()> {
    print_program::print(&rt)
}
