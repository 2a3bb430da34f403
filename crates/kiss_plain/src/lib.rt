// The KISS reader in plain numbers, for C programs: whether a flag has come, whether a DB waits and whether an escape was
// bad are numbers, and any number may come.
// A call is the reader's of the crate kiss_read; its answer is in plain numbers too.
#![tactic(auto)]

ghost use Rattle.std.specs.Prelude.{◌≡◌};
ghost use Rattle.kiss_read.specs.State.{fresh};
ghost use Rattle.kiss_read.specs.Read.{read};
ghost use Rattle.kiss_plain.specs.Plain.{reader_of, plain_of, answer_of};

use kiss_read::Reader;

#[repr(C)]
#[derive(Clone, Copy)]
pub struct PlainReader {
    pub synced: u8,
    pub pending: u8,
    pub count: usize,
    pub type_octet: u8,
    pub bad_escape: u8,
}

// The report or refusal, the octets taken, the payload octets shown, the state for the next call.
// No type parameter for the state, which would serve every framing: include/structs.py reads C's structs from their declarations.
#[repr(C)]
#[derive(Clone, Copy)]
pub struct PlainAnswer {
    pub number: u8,
    pub taken: usize,
    pub length: usize,
    pub reader: PlainReader,
}

impl PlainReader {
    // The state before any flag.
    pub fn fresh() -> Self
        ensures { result ≡ plain_of fresh }
    {
        PlainReader::from(Reader::fresh())
    }

    // Reads a chunk up to its first report.
    pub fn read(self, chunk: &[u8], buffer: &mut [u8]) -> PlainAnswer
        ensures value { result ≡ answer_of self (read (reader_of self) chunk.now buffer.old).answer }
        ensures buffer_after { buffer.new ≡ (read (reader_of self) chunk.now buffer.old).buffer }
    {
        match Reader::from(self).read(chunk, buffer) {
            Ok(answer) => PlainAnswer {
                number: answer.number(),
                taken: answer.taken,
                length: answer.length(),
                reader: PlainReader::from(answer.reader),
            },
            // the very numbers that came, not those of their state
            Err(refusal) => PlainAnswer {
                number: refusal.number(),
                taken: 0,
                length: 0,
                reader: self,
            },
        }
    }
}

// The state that the numbers say.
impl From<PlainReader> for Reader {
    ghost from_gives = { λ c r. r ≡ reader_of c };

    fn from(c: PlainReader) -> Reader {
        Reader {
            synced: truths::truth(c.synced),
            pending: truths::truth(c.pending),
            count: c.count,
            type_octet: c.type_octet,
            bad_escape: truths::truth(c.bad_escape),
        }
    }
}

// The numbers of a state.
impl From<Reader> for PlainReader {
    ghost from_gives = { λ r c. c ≡ plain_of r };

    fn from(r: Reader) -> PlainReader {
        PlainReader {
            synced: truths::bit(r.synced),
            pending: truths::bit(r.pending),
            count: r.count,
            type_octet: r.type_octet,
            bad_escape: truths::bit(r.bad_escape),
        }
    }
}
