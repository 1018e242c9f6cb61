// The bench: a case file from standard input, its answer to standard output.

#![tactic(auto)]

ghost use Rattle.std.specs.Prelude.{◌≤◌, ◌<◌, length, IfOk};
ghost use Rattle.case_file.specs.Output.{case_file_output};
ghost use Rattle.answered_input.specs.Program.{Answers, PartKnown};
ghost use Rattle.answered_input.specs.Results.{bytes_of};

use answering::Form;
use std::io::Read;
use streams::Failure;

// What is handed on to be written.
fn output_bytes<'a, R: Read>(reader: &mut R, out: &'a mut [u8]) -> Result<&'a [u8], Failure>
    requires { 32813 ≤ length out.old }
    ensures some_calls { Answers case_file_output (bytes_of result) }
    ensures known_bytes { PartKnown (R.remaining reader.old) case_file_output (bytes_of result) }
    ensures never_empty { IfOk result (λ bytes. 0 < length bytes.now) }
{
    answered_input::output_bytes(reader, Form::Lines, out)
}

fn main(rt: HostRuntime) {
    let mut out = [0u8; 32813];
    let written = output_bytes(&mut rt.stdin(), &mut out).and_then(|bytes| rt
        .write_all(bytes)
        .map_err(|_| Failure::Unwritten));
    if let Err(failure) = written {
        let _ = eprintln!(rt; "bench: {failure}");
    }
}
