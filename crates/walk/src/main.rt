// The walk program (01, "The program"): reads a job from standard input, and prints its sheet or its refusal.

#![tactic(auto)]

// One byte more than a job may have, so that a longer one is seen to be too long.
const INPUT: usize = jobs::BYTES + 1;

// The standard streams.
const STDIN: i32 = 0;

const STDOUT: i32 = 1;

fn input() -> [u8; INPUT] {
    [0u8; INPUT]
}

fn output() -> [u8; sheets::ROOM] {
    [0u8; sheets::ROOM]
}

fn main() {
    let mut job = input();
    let n = io::read_full(STDIN, &mut job);
    let mut out = output();
    let written = sheets::answer_job(&job[..n], &mut out);
    io::write_all(STDOUT, &out[..written]);
}
