// A captured line: its raw octets before the first flag, between flags and after the last, and its flags, counted chunk after chunk
// (specs/Octets; of a whole capture: specs/Whole). A chunk is taken apart (`parts_of`), and its parts are counted at once (`Octets::with`).
#![tactic(auto)]

ghost use Rattle.std.specs.Prelude.{◌+◌, ◌≤◌, ◌<◌, ◌==◌, ◌≡◌, length, position, reverse};
ghost use Rattle.capture.specs.Octets.{fresh_octets, plain_added, flags_added, count_all, parts_of, parts_added};
ghost use Rattle.capture.specs.Whole.{before, flags, after};

// Octets of a chunk whose flags are counted in one octet.
const PART: usize = 224;

// Octets before the first flag, flags, octets between two flags, octets after the last; and whether a flag has come.
#[derive(Clone, Copy)]
pub struct Octets {
    pub synced: bool,
    pub before: u64,
    pub flags: u64,
    pub between: u64,
    pub after: u64,
}

// Octets of a chunk before its first flag, its flags, octets between two of them, octets after the last.
#[derive(Clone, Copy)]
pub struct Parts {
    pub before: usize,
    pub flags: usize,
    pub between: usize,
    pub after: usize,
}

impl Octets {
    pub fn new() -> Self
        ensures { result ≡ fresh_octets }
    {
        Self {
            synced: false,
            before: 0,
            flags: 0,
            between: 0,
            after: 0,
        }
    }

    // With the octets of a chunk, of a line with this flag; each count stops at `most`.
    pub fn add(self, flag: u8, most: u64, chunk: &[u8]) -> Self
        ensures { result ≡ count_all most flag self chunk.now }
    {
        self.with(most, parts_of(flag, chunk))
    }

    // With octets that have these parts.
    pub fn with(self, most: u64, parts: Parts) -> Self
        ensures { result ≡ parts_added most self parts }
    {
        let opened = self.with_plain(most, parts.before as u64);
        if parts.flags == 0 {
            return opened;
        }
        opened.with_flags(
            most,
            parts.flags as u64,
            parts.between as u64,
            parts.after as u64,
        )
    }

    // With n octets that are no flags.
    fn with_plain(self, most: u64, n: u64) -> Self
        ensures { result ≡ plain_added most self n }
    {
        if self.synced {
            Octets {
                after: counter::add(most, self.after, n),
                ..self
            }
        } else {
            Octets {
                before: counter::add(most, self.before, n),
                ..self
            }
        }
    }

    // With n flags, so many octets between the first of them and the last, and so many behind the last.
    fn with_flags(self, most: u64, n: u64, inner: u64, last: u64) -> Self
        ensures { result ≡ flags_added most self n inner last }
    {
        let closed = counter::add(most, self.between, self.after);
        Octets {
            synced: true,
            flags: counter::add(most, self.flags, n),
            between: counter::add(most, closed, inner),
            after: counter::add(most, 0, last),
            ..self
        }
    }
}

// The parts of a chunk; where it has no flag, all octets are before.
pub fn parts_of(flag: u8, chunk: &[u8]) -> Parts
    ensures { result ≡ parts_of flag chunk.now }
{
    let flags = flags_in(flag, chunk);
    if flags == 0 {
        return Parts {
            before: chunk.len(),
            flags,
            between: 0,
            after: 0,
        };
    }
    let before = octets_before(flag, chunk);
    let after = octets_after(flag, chunk);
    let between = chunk.len() - flags - before - after;
    Parts {
        before,
        flags,
        between,
        after,
    }
}

// The flags of a chunk, in pieces of `PART` octets. The flag may be any octet: so others are counted too.
pub fn flags_in(flag: u8, chunk: &[u8]) -> usize
    ensures { result ≡ flags flag chunk.now }
{
    let mut n = 0;
    for part in chunk.chunks(PART) {
        n += usize::from(flags_in_part(flag, part));
    }
    n
}

// Counted in an octet, which a part can't pass: the loop is then made vectors of sixteen octets.
fn flags_in_part(flag: u8, part: &[u8]) -> u8
    requires { length part.now ≤ 255 }
    ensures { result ≡ flags flag part.now }
{
    let mut n = 0;
    for &x in part {
        n += u8::from(x == flag);
    }
    n
}

// The octets before its first flag; all where it has none.
fn octets_before(flag: u8, chunk: &[u8]) -> usize
    ensures { result ≡ before flag chunk.now }
{
    from_front(flag, chunk).unwrap_or(chunk.len())
}

// The octets after its last flag; none where it has none.
fn octets_after(flag: u8, chunk: &[u8]) -> usize
    ensures { result ≡ after flag chunk.now }
{
    from_end(flag, chunk).unwrap_or(0)
}

// How many octets stand before the first flag, and behind the last.
fn from_front(flag: u8, chunk: &[u8]) -> Option<usize>
    ensures { result ≡ position (λ x. x == flag) chunk.now }
{
    chunk.iter().position(|&x| x == flag)
}

fn from_end(flag: u8, chunk: &[u8]) -> Option<usize>
    ensures { result ≡ position (λ x. x == flag) (reverse chunk.now) }
{
    chunk.iter().rev().position(|&x| x == flag)
}
