// A table of whole parts, and what goes on by it of the units at a decision.
ghost use Rattle.std.specs.Prelude.{◌≡◌, ◌*◌, ◌/◌, ◌^◌, ◌<◌, ◌≤◌};
ghost use Rattle.units.specs.internal.Readable.{UNITS};

// The units of an action's child: its parent's, times the action's part, over the parts of the set.
fn decision_share(units: u64, part: u64, parts: u64) -> u64
    requires { (0 < parts) × (units * part < 2 ^ 64) }
    ensures { result ≡ units * part / parts }
{
    units * part / parts
}

// The parts of the actions, set by set, of so many in each set.
#[derive(Clone, Copy)]
pub struct Table<'a> {
    pub entries: &'a [u8],
    pub parts: usize,
    ghost least: { 1 ≤ parts },
    ghost most: { parts ≤ 64 },
}

impl Table<'_> {
    // Of u units, what goes on to an action with part parts; each is u / parts, so that units which divide evenly are divided once for all actions of a set.
    pub fn share(&self, part: u8, u: u64, each: u64) -> u64
        requires { (u < UNITS) × (each ≡ u / self.now.parts) }
        ensures { (result < UNITS) × (part ≤ self.now.parts → result ≡ u * part / self.now.parts) }
    {
        let part = u64::from(part);
        // `as`: both have 64 bits, and u64 has no From of usize.
        let whole = self.parts as u64;
        if whole < part {
            return 0;
        }
        if each * whole == u {
            return each * part;
        }
        decision_share(u, part, whole)
    }
}
