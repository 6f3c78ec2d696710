// Writing a program's text to standard output.
ghost use Rattle.std.specs.Prelude.{◌≤◌};
ghost use Rattle.std.specs.Process.{exit_status};

use std::io::ErrorKind;
use std::process::ExitCode;

// Prints the text of the program of this name, and answers the status to exit with. A text that cannot be written whole is told of on
// standard error, and the status stays 0. A reader that has gone away is told nothing, and the status is 1.
pub fn print_text<R: Print + Eprint>(rt: &R, program: &str, text: &[u8]) -> ExitCode
    ensures { exit_status result ≤ 1 }
{
    match rt.write_all(text) {
        Ok(()) => ExitCode::SUCCESS,
        Err(error) if error.kind() == ErrorKind::BrokenPipe => ExitCode::FAILURE,
        Err(_) => {
            let _ = eprintln!(rt; "{program}: the text cannot be written whole");
            ExitCode::SUCCESS
        }
    }
}
