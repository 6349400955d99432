// Reads a policy file from standard input and prints its report, or the line `E`. Where reading fails nothing is printed; where reading or writing fails, standard error gets a line.
#![tactic(auto)]

use failures::fail;

fn main(rt: HostRuntime) {
    let mut file = [0u8; 16385];
    let input = input::read_all(&mut rt.stdin(), &mut file);
    if let Some(failure) = input.failure {
        fail(&rt, "policy_report: standard input", &failure);
        return;
    }
    let mut out = [0u8; 65536];
    let printed = program::print(&file[0..input.length], &mut out);
    if let Err(failure) = rt.write_all(&out[0..printed]) {
        fail(&rt, "policy_report: standard output", &failure);
    }
}
