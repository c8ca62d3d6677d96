// The printing program with a room.bun of 65,536 bytes.

#![tactic(auto)]

use std::io;

fn main(rt: HostRuntime) -> io::Result<()> {
    print_program::print(&rt)
}
