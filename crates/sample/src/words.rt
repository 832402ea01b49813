// What the calls answer in bytes, as it is printed.

use kuhn::KuhnPoker;
use std::fmt;
use std::fmt::Display;

// An action by its name. The calls take and answer actions as bytes, since C does.
#[derive(Clone, Copy)]
pub struct Action(pub u8);

impl Display for Action {
    fn fmt<W: fmt::Write>(&self, f: &mut fmt::Formatter<W>) -> fmt::Result {
        let name = if self.0 == KuhnPoker::PASS {
            "PASS"
        } else {
            "BET"
        };
        f.write_str(name)
    }
}

// Actions, each behind a space.
#[derive(Clone, Copy)]
pub struct Actions<'a>(pub &'a [u8]);

impl Display for Actions<'_> {
    fn fmt<W: fmt::Write>(&self, f: &mut fmt::Formatter<W>) -> fmt::Result {
        for action in self.0 {
            let action = Action(*action);
            write!(f, " {action}")?;
        }
        Ok(())
    }
}

// The bytes of a key, each behind a space.
#[derive(Clone, Copy)]
pub struct Key<'a>(pub &'a [u8]);

impl Display for Key<'_> {
    fn fmt<W: fmt::Write>(&self, f: &mut fmt::Formatter<W>) -> fmt::Result {
        for byte in self.0 {
            write!(f, " {byte}")?;
        }
        Ok(())
    }
}
