// Octets that are escaped on a flagged line, and what stands for each of them behind the escape: what the writers and readers
// of every framing go by. Definitions: specs/Escapes.
#![tactic(auto)]

ghost use Rattle.std.specs.Prelude.{cond, ◌≡◌, ◌+◌, ◌≤◌, eqb, length, drop, position};
ghost use Rattle.common.specs.Plain.{plain, plain_length};
ghost use Rattle.escapes.specs.Escapes.{is_escaped, is_partner, stands_for};

// So many octets are looked at together, without a branch: one vector of the machine.
const BLOCK: usize = 16;

// The flag and the escape, which are escaped, two more octets, whether these are escaped too, and what stands behind the escape for
// each. The third and the fourth are no Option: stands_for and behind (specs/Escapes) read them whatever `others` says.
#[derive(Clone, Copy)]
pub struct Escapes {
    pub flag: u8,
    pub escape: u8,
    pub others: bool,
    pub third: u8,
    pub fourth: u8,
    pub behind_flag: u8,
    pub behind_escape: u8,
    pub behind_third: u8,
    pub behind_fourth: u8,
}

impl Escapes {
    // Whether an octet is escaped, so that it may not stand in a run of octets that go on the line as they are.
    pub fn escapes(self, x: u8) -> bool
        ensures { result ≡ is_escaped self x }
    {
        let two = (x == self.flag) | (x == self.escape);
        if self.others {
            return two | ((x == self.third) | (x == self.fourth));
        }
        two
    }

    // Whether an octet behind the escape stands for one that is escaped, and for which.
    #[tactic(auto, unfolding(crate::specs::Escapes::is_partner))]
    pub fn is_partner(self, y: u8) -> bool
        ensures { result ≡ is_partner self y }
    {
        (y == self.behind_flag)
            | ((y == self.behind_escape)
                | (self.others & ((y == self.behind_third) | (y == self.behind_fourth))))
    }

    #[tactic(auto, unfolding(crate::specs::Escapes::stands_for))]
    pub fn stands_for(self, y: u8) -> u8
        ensures { result ≡ stands_for self y }
    {
        if y == self.behind_flag {
            self.flag
        } else if y == self.behind_escape {
            self.escape
        } else if y == self.behind_third {
            self.third
        } else {
            self.fourth
        }
    }

    // Whether none of the octets is escaped. Each is looked for by itself: of that the compiler makes comparisons of whole
    // vectors, and of one test for all, or of a branch among them, it does not. So where the others are not escaped, the flag and
    // the escape are looked for once more in their places.
    pub fn all_plain(self, octets: &[u8]) -> bool
        ensures { result ≡ plain (is_escaped self) octets.now }
    {
        let (third, fourth) = if self.others {
            (self.third, self.fourth)
        } else {
            (self.flag, self.escape)
        };
        let no_flag = lacks(octets, self.flag);
        let no_escape = lacks(octets, self.escape);
        let no_third = lacks(octets, third);
        let no_fourth = lacks(octets, fourth);
        (no_flag & no_escape) & (no_third & no_fourth)
    }

    // The same of a block of many: the others are looked for only where they are escaped. The compiler makes a loop over blocks for
    // each of the two.
    fn block_plain(self, block: &[u8]) -> bool
        ensures { result ≡ plain (is_escaped self) block.now }
    {
        if self.others {
            return self.all_plain(block);
        }
        let no_flag = lacks(block, self.flag);
        let no_escape = lacks(block, self.escape);
        no_flag & no_escape
    }

    // How many octets of the front stand before the first that is escaped.
    #[tactic(auto, using(crate::proofs::Several::plain_some, crate::proofs::Several::plain_none))]
    pub fn plain_length(self, octets: &[u8]) -> usize
        ensures { result ≡ plain_length (is_escaped self) octets.now }
    {
        let blocks = self.plain_blocks(octets);
        let (_, rest) = octets.split_at(blocks);
        match self.first_escaped(rest) {
            Some(i) => blocks + i,
            None => octets.len(),
        }
    }

    fn first_escaped(self, octets: &[u8]) -> Option<usize>
        ensures { result ≡ position (is_escaped self) octets.now }
    {
        octets.iter().position(|x| self.escapes(*x))
    }

    // How many octets of the front are found plain in whole blocks.
    fn plain_blocks(self, octets: &[u8]) -> usize
        ensures upper_bound { result ≤ length octets.now }
        ensures octets_value { plain_length (is_escaped self) octets.now ≡ result + plain_length (is_escaped self) (drop result octets.now) }
    {
        let mut n = 0;
        for block in octets.chunks_exact(BLOCK) {
            if !self.block_plain(block) {
                return n;
            }
            n += BLOCK;
        }
        n
    }
}

// Whether an octet is not among others. All are looked at, so that there is no branch among them.
fn lacks(octets: &[u8], y: u8) -> bool
    ensures { result ≡ plain (λ x. eqb x y) octets.now }
{
    let mut so_far = true;
    for x in octets {
        so_far &= *x != y;
    }
    so_far
}
