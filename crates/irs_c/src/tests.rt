//! The calls, over words and files in memory.
use crate::each::Answer;
use crate::exports::{irs_run, irs_run_each, irs_version};
use crate::given::{Bytes, File, Trade};
use irs_cli::{bulk_calendar, bulk_doc};
use std::alloc::Global;
use std::test::*;

fn lent(at: &'static [u8]) -> Bytes<'static> {
    Bytes { at }
}

fn words() -> [Bytes<'static>; 2] {
    [lent(b"check"), lent(b"D")]
}

fn words_with_controls() -> [Bytes<'static>; 2] {
    [lent(b"check"), lent(b"\x1b[2J")]
}

// The status of a run, with the lengths of its text and of its sentence.
fn run(
    rt: &HostRuntime,
    words: &[Bytes<'_>],
    files: &[File<'_>],
    out: &mut [u8],
    said: &mut [u8],
) -> (u8, usize, usize) {
    let (mut needed, mut said_needed) = (0, 0);
    let status = irs_run(
        rt.alloc(),
        words,
        files,
        out,
        &mut needed,
        said,
        &mut said_needed,
    );
    (status, needed, said_needed)
}

#[test]
fn a_document_that_is_no_json(rt: HostRuntime) {
    let files = [File {
        name: lent(b"D"),
        bytes: lent(b"["),
    }];
    let (mut out, mut said) = ([b'#'; 32], [b'#'; 96]);
    assert_eq!(rt;
        run(&rt, &words(), &files, &mut out, &mut said),
        (2, 24, 65)
    );
    assert!(rt; out.starts_with(b"refused K1 0 document 0\n#"));
    assert!(rt;
        said.starts_with(b"K1: the document isn't JSON (reading stopped at line 1, column 2)#")
    );
    assert_eq!(rt;
        run(&rt, &words(), &[], &mut out[..3], &mut said[..2]),
        (5, 10, 19)
    );
    assert!(rt; out.starts_with(b"no u"));
    assert!(rt; said.starts_with(b"co:"));
}

#[test]
fn a_document_in_xml(rt: HostRuntime) {
    let files = [File {
        name: lent(b"d.xml"),
        bytes: lent(b"<swap/>"),
    }];
    let words = [lent(b"carrier"), lent(b"d.xml")];
    let (mut out, mut said) = ([b'#'; 32], [b'#'; 32]);
    assert_eq!(rt; run(&rt, &words, &files, &mut out, &mut said), (0, 12, 0));
    assert!(rt; out.starts_with(b"{\"swap\":\"\"}\n#"));
    assert!(rt; said.starts_with(b"#"));
}

#[test]
fn the_line_of_a_broken_rule(rt: HostRuntime) {
    let files = [File {
        name: lent(b"d.xml"),
        bytes: lent(b"<trade>\n<swap/>\n</trade>"),
    }];
    let words = [lent(b"check"), lent(b"d.xml")];
    let (mut out, mut said) = ([b'#'; 64], [b'#'; 128]);
    assert_eq!(rt; run(&rt, &words, &files, &mut out, &mut said), (2, 20, 81));
    assert!(rt; out.starts_with(b"refused K3 0 swap 0\n#"));
    assert!(rt;
        said.starts_with(
            b"K3: swap isn't the text or the object that it has to be; it is a text; see line 2#"
        )
    );
}

#[test]
fn a_name_with_controls(rt: HostRuntime) {
    let (mut out, mut said) = ([b'#'; 32], [b'#'; 32]);
    assert_eq!(rt;
        run(&rt, &words_with_controls(), &[], &mut out, &mut said),
        (5, 10, 25)
    );
    assert!(rt; said.starts_with(b"couldn't be read: \\x1b[2J#"));
}

#[test]
fn the_version(rt: HostRuntime) {
    let mut out = [b'#'; 64];
    let mut needed = 0;
    irs_version(&mut out, &mut needed);
    assert_eq!(rt; needed, 54);
    assert_eq!(rt; &out[..10], b"irs 1.0.0,".as_slice());
    let mut short = [b'#'; 4];
    irs_version(&mut short[..3], &mut needed);
    assert_eq!(rt; (&short, needed), (b"irs#", 54));
}

#[test]
fn a_command_over_two_trades(rt: HostRuntime) {
    let words = [lent(b"schedule"), lent(b"D"), lent(b"F")];
    let common = [File {
        name: lent(b"F"),
        bytes: lent(b"a"),
    }];
    let one = [File {
        name: lent(b"D"),
        bytes: lent(b"["),
    }];
    let trades = [Trade { files: &one }, Trade { files: &[] }];
    let mut answers = [Answer {
        status: 99,
        text: 99,
        sentence: 99,
    }; 3];
    let mut out = [b'#'; 160];
    let mut needed = 0;
    irs_run_each(
        rt.alloc(),
        &words,
        &common,
        &trades,
        &mut answers,
        &mut out,
        &mut needed,
    );
    assert_eq!(rt;
        (answers[0].status, answers[0].text, answers[0].sentence),
        (2, 24, 65)
    );
    assert_eq!(rt;
        (answers[1].status, answers[1].text, answers[1].sentence),
        (5, 10, 19)
    );
    assert_eq!(rt; answers[2].status, 99);
    assert_eq!(rt; needed, 118);
    assert_eq!(rt; &out[..24], b"refused K1 0 document 0\n".as_slice());
    assert_eq!(rt;
        &out[24..89],
        b"K1: the document isn't JSON (reading stopped at line 1, column 2)".as_slice()
    );
    assert_eq!(rt;
        &out[89..119],
        b"no file 1\ncouldn't be read: D#".as_slice()
    );
}

const NO_ANSWER: Answer = Answer {
    status: 99,
    text: 0,
    sentence: 0,
};

/// A calendar for the centre of the document, without holidays.
const CALENDAR: &[u8] = b"center BULK\ncover 1949-01-01 2012-12-31\nweekend SAT SUN\n";

/// Cash flows without a payment.
const NO_PAYMENT: &[u8] = b"{\"swap\":{\"swapStream\":{\"cashflows\":\
    {\"cashflowsMatchParameters\":\"true\",\"paymentCalculationPeriod\":[]}}}}";

fn file<'a>(name: &'a [u8], bytes: &'a [u8]) -> File<'a> {
    File {
        name: Bytes { at: name },
        bytes: Bytes { at: bytes },
    }
}

// The common files, and after them a trade's own.
fn joined<'a>(alloc: Global, common: &[File<'a>], own: &[File<'a>]) -> Option<Vec<File<'a>>> {
    let mut files = Vec::new(alloc);
    for lent in common {
        files.push(file(lent.name.at, lent.bytes.at)).ok()?;
    }
    for lent in own {
        files.push(file(lent.name.at, lent.bytes.at)).ok()?;
    }
    Some(files)
}

// The status of a run over these files alone. Its text and its sentence are appended.
fn alone(alloc: Global, words: &[Bytes<'_>], files: &[File<'_>], all: &mut Vec<u8>) -> Option<u8> {
    let (mut out, mut said) = ([b'#'; 128], [b'#'; 128]);
    let (mut needed, mut said_needed) = (0, 0);
    let status = irs_run(
        alloc,
        words,
        files,
        &mut out,
        &mut needed,
        &mut said,
        &mut said_needed,
    );
    all.extend_from_slice(out.get(..needed)?).ok()?;
    all.extend_from_slice(said.get(..said_needed)?).ok()?;
    Some(status)
}

// The statuses of three trades in one call; `None` where one of them comes to something else alone.
fn as_alone<'a>(
    alloc: Global,
    words: &[Bytes<'_>],
    common: &[File<'a>],
    trades: &[Trade<'a>],
) -> Option<[u8; 3]> {
    let mut said = Vec::new(alloc);
    let [one, two, three] = trades else {
        return None;
    };
    let single = [
        alone(alloc, words, &joined(alloc, common, one.files)?, &mut said)?,
        alone(alloc, words, &joined(alloc, common, two.files)?, &mut said)?,
        alone(
            alloc,
            words,
            &joined(alloc, common, three.files)?,
            &mut said,
        )?,
    ];
    let mut answers = [NO_ANSWER; 3];
    let mut out = [b'#'; 512];
    let mut needed = 0;
    irs_run_each(
        alloc,
        words,
        common,
        trades,
        &mut answers,
        &mut out,
        &mut needed,
    );
    let statuses = [answers[0].status, answers[1].status, answers[2].status];
    if statuses == single && out.get(..needed)? == said.as_slice() {
        Some(statuses)
    } else {
        None
    }
}

// Trades with documents and flows of their own: without the payment that is due, without a document, and with
// no flows.
fn audited(alloc: Global) -> Option<[u8; 3]> {
    let words = [
        lent(b"audit"),
        lent(b"D"),
        lent(b"-"),
        lent(b"F"),
        lent(b"C"),
    ];
    let calendar = bulk_calendar(alloc).ok()?;
    let document = bulk_doc(alloc, 1, true).ok()?;
    let common = [file(b"C", &calendar)];
    let one = [file(b"D", &document), file(b"F", NO_PAYMENT)];
    let two = [file(b"F", NO_PAYMENT), file(b"D", b"[")];
    let three = [file(b"F", b"{}"), file(b"D", &document)];
    let trades = [
        Trade { files: &one },
        Trade { files: &two },
        Trade { files: &three },
    ];
    as_alone(alloc, &words, &common, &trades)
}

#[test]
fn a_trade_has_its_own_document_and_flows(rt: HostRuntime) {
    assert_eq!(rt; audited(rt.alloc()), Some([1, 2, 3]));
}

// The words of a check with a trade's own calendar, or with the common one.
fn words_of_check(common: bool) -> [Bytes<'static>; 3] {
    let calendar = if common { b"E" } else { b"C" };
    [lent(b"check"), lent(b"D"), lent(calendar)]
}

// Trades with calendars of their own, and a common file that is no calendar. One trade has a calendar of its name.
fn checked(alloc: Global, common: bool) -> Option<[u8; 3]> {
    let words = words_of_check(common);
    let shared = Vec::from_slice(alloc, b"x\n").ok()?;
    let document = bulk_doc(alloc, 2, false).ok()?;
    let common = [file(b"E", &shared)];
    let one = [
        file(b"D", &document),
        file(b"C", CALENDAR),
        file(b"E", CALENDAR),
    ];
    let two = [file(b"C", b"x\n"), file(b"D", b"[")];
    let three = [file(b"C", b"x\n"), file(b"D", &document)];
    let trades = [
        Trade { files: &one },
        Trade { files: &two },
        Trade { files: &three },
    ];
    as_alone(alloc, &words, &common, &trades)
}

#[test]
fn a_trade_has_its_own_calendar(rt: HostRuntime) {
    assert_eq!(rt; checked(rt.alloc(), false), Some([0, 2, 3]));
    // A common calendar comes first, and is read after each document.
    assert_eq!(rt; checked(rt.alloc(), true), Some([3, 2, 3]));
}
