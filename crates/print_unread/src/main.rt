// The printing program with a room.bun that opens and cannot be read: a directory.

#![tactic(auto)]

use std::io;

fn main(rt: HostRuntime) -> io::Result<()> {
    print_program::print(&rt)
}
