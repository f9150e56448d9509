// Why a run of the program ends before its input does.
use std::error::Error;
use std::fmt;

#[derive(Clone, Copy, Debug, PartialEq, Eq)]
pub enum Failure {
    ReadFailed,
    WriteFailed,
    TurnsOver,
}

impl fmt::Display for Failure {
    fn fmt<W: fmt::Write>(&self, f: &mut fmt::Formatter<W>) -> fmt::Result {
        f.write_str(match self {
            Failure::ReadFailed => "standard input cannot be read",
            Failure::WriteFailed => "standard output cannot be written",
            Failure::TurnsOver => "the input is too long",
        })
    }
}

impl Error for Failure {}
