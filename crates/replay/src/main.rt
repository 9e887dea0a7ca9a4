// Runs logs from standard input, each with its start clock and its length in front, and prints each as stepper would.
#![tactic(auto)]

fn main(rt: HostRuntime) {
    logs::run_logs(&rt);
}
