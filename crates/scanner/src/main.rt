// The program: commands on standard input, their answers and the last record on standard output.
#![tactic(auto)]

use scan::{MOST_INPUT, OUTPUT_BYTES};
use std::io;
use std::io::Read;

fn main(rt: HostRuntime) -> io::Result<()> {
    let mut input = Vec::new(rt.alloc());
    rt.stdin()
        .take(MOST_INPUT as u64 + 1)
        .read_to_end(&mut input)?;
    let mut output = [0u8; OUTPUT_BYTES];
    let m = scan::scan(&input, &mut output);
    rt.write_all(&output[..m])
}
