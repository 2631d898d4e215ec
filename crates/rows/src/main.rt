// The test program: tables of worked rows, one after the other, each in a file of its own. The file stdout has what document 01 says.
// The requests of random.bin are made at random: the second program (reference/) made them, and answered them for stdout.
#![tactic(auto)]

mod checks;
mod file;
mod finds;
mod patterns;
mod print;
mod records;
mod work_area;

use arrayvec::ArrayVec;
use std::rt::Files;

// Prints the name of a table's file, and every row of it.
fn run<F: FnMut(&[u8])>(
    rt: &(impl Files + Print),
    name: &str,
    table: &mut ArrayVec<u8, 65536>,
    row: F,
)
    requires { F.IsAlwaysCallable row }
{
    print::line(rt, format_args!("{name}:"));
    file::load(rt, name, table);
    file::Fields(table.as_slice()).for_each(row);
}

fn main(rt: HostRuntime) {
    // The buffer stays from row to row: rows about records begin a record in it, and add to it.
    let mut buf = [0u8; 65536];
    let mut table = ArrayVec::new();
    run(&rt, "records.bin", &mut table, |r| {
        records::row(&rt, r, &mut buf)
    });
    run(&rt, "patterns.bin", &mut table, |r| patterns::row(&rt, r));
    run(&rt, "checks.bin", &mut table, |r| checks::row(&rt, r));
    run(&rt, "finds.bin", &mut table, |r| finds::row(&rt, r));
    run(&rt, "random.bin", &mut table, |r| finds::row(&rt, r));
}
