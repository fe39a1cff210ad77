// The program, whose run here is a script up to a line that is too long.
#![tactic(auto)]

use branch_disk::FileDisk;
use branch_program::{Words, read_words, run_command};
use std::process::ExitCode;

fn main(rt: HostRuntime) -> ExitCode {
    match read_words(&rt) {
        Ok(
            Words {
                path,
                second,
                command,
            },
        ) => run_command(
            &rt,
            &command,
            FileDisk::new(&rt, path),
            FileDisk::new(&rt, second),
        ),
        Err(ended) => ended,
    }
}
