// Reports and packets found in a capture so far, for the line sheet, report by report (specs/Found).
#![tactic(auto)]

ghost use Rattle.std.specs.Prelude.{◌≡◌};
ghost use Rattle.sheet_rules.specs.Counts.{is_data, is_dack, is_numbered, number_after};
ghost use Rattle.sheet_found.specs.Found.{fresh_found, found_with, more};

use dlc_packet::Kind;
use qaft_report::Report;
use reports::Shows;

// No DATA has this number.
const NONE: u8 = dlc_packet::MODULUS;

// Reports of each kind, DATA, DACK, repeats; the number of the last DATA.
#[derive(Clone, Copy)]
pub struct Found {
    pub frames: u64,
    pub aborted: u64,
    pub long: u64,
    pub short: u64,
    pub bad_checks: u64,
    pub bad_pairs: u64,
    pub data_packets: u64,
    pub dack_packets: u64,
    pub repeats: u64,
    pub last: u8,
}

impl Found {
    // Nothing is found yet.
    pub fn new() -> Self
        ensures { result ≡ fresh_found }
    {
        Self {
            frames: 0,
            aborted: 0,
            long: 0,
            short: 0,
            bad_checks: 0,
            bad_pairs: 0,
            data_packets: 0,
            dack_packets: 0,
            repeats: 0,
            last: NONE,
        }
    }

    // With a report, of which these octets are shown: the data of a frame, or none.
    pub fn with(self, report: Report, octets: &[u8]) -> Self
        ensures { result ≡ found_with self (record { report = report; octets = octets.now }) }
    {
        let n = report.number();
        let kind = dlc_packet::kind_of(octets);
        Found {
            frames: more(n == qaft::FRAME, self.frames),
            aborted: more(n == qaft::ABORTED, self.aborted),
            long: more(n == qaft::LONG, self.long),
            short: more(n == qaft::SHORT, self.short),
            bad_checks: more(n == qaft::BAD_CHECK, self.bad_checks),
            bad_pairs: more(n == qaft::BAD_PAIR, self.bad_pairs),
            data_packets: more(is_data(kind), self.data_packets),
            dack_packets: more(is_dack(kind), self.dack_packets),
            repeats: more(is_numbered(self.last, kind), self.repeats),
            last: number_after(self.last, kind),
        }
    }
}

// One more, if so.
fn more(yes: bool, n: u64) -> u64
    ensures { result ≡ more yes n }
{
    if yes {
        counter::add(sheet::TOO_LARGE, n, 1)
    } else {
        n
    }
}

fn is_data(kind: Kind) -> bool
    ensures { result ≡ is_data kind }
{
    matches!(kind, Kind::Data(_))
}

fn is_dack(kind: Kind) -> bool
    ensures { result ≡ is_dack kind }
{
    matches!(kind, Kind::Dack(_))
}

// Whether a packet is DATA with this number.
fn is_numbered(x: u8, kind: Kind) -> bool
    ensures { result ≡ is_numbered x kind }
{
    matches!(kind, Kind::Data(y) if y == x)
}

// The number of the last DATA, where it was x before the packet.
fn number_after(x: u8, kind: Kind) -> u8
    ensures { result ≡ number_after x kind }
{
    if let Kind::Data(y) = kind { y } else { x }
}
