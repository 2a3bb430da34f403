// What a listing calls the reports of the two framings. Definitions: specs/Entries.
ghost use Rattle.std.specs.Prelude.{◌≡◌};
ghost use Rattle.lister.specs.Entries.{entry_of_qaft, entry_of_kiss, entry_length};

use listing::Entry;

// Functions, and no `From`: neither `Entry` nor the two reports are declared in this crate.
pub(crate) fn of_qaft(report: qaft_report::Report) -> Entry
    ensures { result ≡ entry_of_qaft report }
{
    match report {
        qaft_report::Report::Frame(n) => Entry::Frame(n),
        qaft_report::Report::Aborted => Entry::Aborted,
        qaft_report::Report::Long => Entry::Long,
        qaft_report::Report::Short => Entry::Short,
        qaft_report::Report::BadCheck => Entry::BadCheck,
        qaft_report::Report::BadPair => Entry::BadPair,
    }
}

pub(crate) fn of_kiss(report: kiss_report::Report) -> Entry
    ensures { result ≡ entry_of_kiss report }
{
    match report {
        kiss_report::Report::Frame(n) => Entry::Frame(n),
        kiss_report::Report::BadEscape => Entry::BadEscape,
        kiss_report::Report::Short => Entry::Short,
        kiss_report::Report::Long => Entry::Long,
        kiss_report::Report::Skipped => Entry::Skipped,
    }
}

// How many octets are shown of it: those of a frame.
pub(crate) fn length(entry: Entry) -> usize
    ensures { result ≡ entry_length entry }
{
    if let Entry::Frame(n) = entry { n } else { 0 }
}
