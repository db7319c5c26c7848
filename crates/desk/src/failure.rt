// What goes wrong with the input or the output.
use lines::answers::Failure;
use std::io;

// Tells on standard error what could not be done.
pub fn tell(rt: &(impl Eprint + Alloc), failure: Failure) {
    match failure {
        Failure::Read(e) => fail(rt, "desk: cannot read standard input", e),
        Failure::Write(e) => fail(rt, "desk: cannot write standard output", e),
    }
}

// And why in the system's words, without the number that it has for them.
fn fail(rt: &(impl Eprint + Alloc), what: &str, error: io::Error) {
    let _ = match format!(in rt.alloc(); "{error}") {
        Ok(words) => match words.as_str().split_once(" (os error ") {
            Some((why, _)) => eprintln!(rt; "{what}: {why}"),
            None => eprintln!(rt; "{what}: {words}"),
        },
        Err(_) => eprintln!(rt; "{what}: {error}"),
    };
}
