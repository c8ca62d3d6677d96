// Prints the room of room.bun: here, example 12 of document 01.

#![tactic(auto)]

use std::io;

fn main(rt: HostRuntime) -> io::Result<()> {
    print_program::print(&rt)
}
