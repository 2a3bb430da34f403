// The QAFT reader in plain numbers, for C programs: whether a flag has come, whether a 7D waits and whether a bad pair came are numbers,
// and any number may come.
// A call is the reader's of the crate qaft_read; its answer is in plain numbers too.
#![tactic(auto)]

ghost use Rattle.std.specs.Prelude.{◌≡◌};
ghost use Rattle.qaft_read.specs.State.{fresh};
ghost use Rattle.qaft_read.specs.Read.{read};
ghost use Rattle.qaft_plain.specs.Plain.{reader_of, plain_of, answer_of};

use qaft_read::Reader;

// In this order the state has sixteen octets, which C hands over in registers.
#[repr(C)]
#[derive(Clone, Copy)]
pub struct PlainReader {
    pub level: u8,
    pub check_kind: u8,
    pub synced: u8,
    pub pending: u8,
    pub bad_pair: u8,
    pub check: u16,
    pub count: usize,
}

// The report or refusal, the octets taken, the data octets shown, the state for the next call.
// No type parameter for the state, which would serve every framing: include/structs.py reads C's structs from their declarations.
#[repr(C)]
#[derive(Clone, Copy)]
pub struct PlainAnswer {
    pub number: u8,
    pub taken: usize,
    pub length: usize,
    pub reader: PlainReader,
}

impl PlainReader {
    // The state before any flag.
    pub fn fresh(level: u8, check_kind: u8) -> Self
        ensures { result ≡ plain_of (fresh level check_kind) }
    {
        PlainReader::from(Reader::fresh(level, check_kind))
    }

    // Reads a chunk up to its first report.
    pub fn read(self, chunk: &[u8], buffer: &mut [u8]) -> PlainAnswer
        ensures value { result ≡ answer_of self (read (reader_of self) chunk.now buffer.old).answer }
        ensures buffer_after { buffer.new ≡ (read (reader_of self) chunk.now buffer.old).buffer }
    {
        match Reader::from(self).read(chunk, buffer) {
            Ok(answer) => PlainAnswer {
                number: answer.number(),
                taken: answer.taken,
                length: answer.length(),
                reader: PlainReader::from(answer.reader),
            },
            // the very numbers that came, not those of their state
            Err(refusal) => PlainAnswer {
                number: refusal.number(),
                taken: 0,
                length: 0,
                reader: self.by_fields(),
            },
        }
    }

    // The same numbers, field by field: of a copy at once the compiler moves what lies between the fields too.
    fn by_fields(self) -> PlainReader
        ensures { result ≡ self }
    {
        PlainReader {
            level: self.level,
            check_kind: self.check_kind,
            synced: self.synced,
            pending: self.pending,
            bad_pair: self.bad_pair,
            check: self.check,
            count: self.count,
        }
    }
}

// The state that the numbers say.
impl From<PlainReader> for Reader {
    ghost from_gives = { λ c r. r ≡ reader_of c };

    fn from(c: PlainReader) -> Reader {
        Reader {
            level: c.level,
            check_kind: c.check_kind,
            synced: truths::truth(c.synced),
            pending: truths::truth(c.pending),
            count: c.count,
            check: c.check,
            bad_pair: truths::truth(c.bad_pair),
        }
    }
}

// The numbers of a state.
impl From<Reader> for PlainReader {
    ghost from_gives = { λ r c. c ≡ plain_of r };

    fn from(r: Reader) -> PlainReader {
        PlainReader {
            level: r.level,
            check_kind: r.check_kind,
            synced: truths::bit(r.synced),
            pending: truths::bit(r.pending),
            count: r.count,
            check: r.check,
            bad_pair: truths::bit(r.bad_pair),
        }
    }
}
