// Reads call records from standard input to its end and prints a line for each: one log, from an empty supervisor with clock 0.
#![tactic(auto)]

fn main(rt: HostRuntime) {
    logs::run_input(&rt, 0);
}
