// The program: answers questions from standard input about the book in book.rlb.
#![tactic(auto)]

fn main(rt: HostRuntime) {
    program::run(&rt, b"book.rlb");
}
