// The small program, from standard input to standard output.
#![tactic(auto)]

fn main(rt: HostRuntime) {
    let _ = conforming::run(&rt, &mut rt.stdin(), &mut rt.stdout());
}
