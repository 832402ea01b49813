// Why the program ends early: a call was refused, or what it prints cannot be written.

use refusals::Refusal;
use std::fmt::Debug;
use std::{fmt, io};

#[derive(Drop)]
pub enum Failure {
    Refused(Refusal),
    Output(io::Error),
}

impl From<Refusal> for Failure {
    fn from(refusal: Refusal) -> Self {
        Failure::Refused(refusal)
    }
}

impl From<io::Error> for Failure {
    fn from(error: io::Error) -> Self {
        Failure::Output(error)
    }
}

// What is printed where the program ends early: the refusal or the error as it is.
impl Debug for Failure {
    fn fmt<W: fmt::Write>(&self, f: &mut fmt::Formatter<W>) -> fmt::Result {
        match self {
            Failure::Refused(refusal) => write!(f, "{refusal:?}"),
            Failure::Output(error) => write!(f, "{error:?}"),
        }
    }
}
