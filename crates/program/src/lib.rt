// What the program prints of a policy file: its report, or the line `E`.
#![tactic(auto)]

ghost use Rattle.std.specs.Prelude.{◌≡◌, ◌++◌, ◌≤◌, length, drop};
ghost use Rattle.meaning.specs.Report.{program};

use printing::Sink;

// The text, in a buffer of 65,536 bytes; what is behind it stays. How long it is, is the result.
pub fn print(file: &[u8], out: &mut [u8; 65536]) -> usize
    ensures { (result ≡ length (program file.now)) × (out.new ≡ program file.now ++ drop result out.old) × (result ≤ length out.new) }
{
    let answer = jogimaduve::jogimaduve_report(file, out);
    let number = answer.number;
    let second = answer.second as usize;
    if number == 0 {
        return second;
    }
    let mut sink = Sink { out, at: 0 };
    sink.put_field(b"E", 9);
    sink.put_number(number as usize, 9);
    sink.put_number(second, 10);
    sink.at
}
