//! The texts of `--help` and `--version`, and the listed commands.

/// The listed commands. DOC is a document of terms and FLOWS one of cash flows. FIX and DAILY are files of
/// fixings, or `-` for none. CAL is a calendar file, DATE a date, and FROM a date or `-` for all. The other
/// words are those of the command.
pub const COMMANDS: [&str; 14] = [
    "check DOC CAL..",
    "schedule DOC FIX CAL..",
    "audit DOC FIX FLOWS CAL..",
    "breaks FROM DOC FIX FLOWS CAL..",
    "emit DOC FIX CAL..",
    "emit-xml DOC FIX CAL..",
    "net DOC FIX CAL..",
    "accrue DATE DOC FIX CAL..",
    "observations STREAM DOC FIX CAL..",
    "overnight STREAM DOC DAILY CAL..",
    "average STREAM KIND STEP DOC FIX CAL..",
    "interpolate STREAM SIDE LOW HIGH DOC FIX CAL..",
    "carrier DOC",
    "bulk N",
];

/// What `irs --help` prints.
pub const HELP: &str = "\
irs: proved schedules of interest rate swaps

  irs check DOC CAL..             whether the document keeps every rule
  irs schedule DOC FIX CAL..      its dates, periods, fixings and payments
  irs audit DOC FIX FLOWS CAL..   whether cash flows agree with that schedule
  irs breaks FROM DOC FIX FLOWS CAL..
                                  each difference of cash flows, for what is due from FROM on
  irs emit DOC FIX CAL..          the schedule as cash flows in FpML's words
  irs emit-xml DOC FIX CAL..      the schedule as cash flows in FpML XML
  irs net DOC FIX CAL..           what the two parties pay each other, by day and currency
  irs accrue DATE DOC FIX CAL..   what has accrued in each stream on a day
  irs observations STREAM DOC FIX CAL..
                                  the days and daily rates behind each rate of a stream
  irs overnight STREAM DOC DAILY CAL..
                                  fixings of a stream, compounded from daily rates
  irs average STREAM KIND STEP DOC FIX CAL..
                                  fixings of a stream, averaged; KIND is plain or weighted
  irs interpolate STREAM SIDE LOW HIGH DOC FIX CAL..
                                  the fixing of a stub between two tenors; SIDE is initial or final
  irs carrier DOC                 the JSON value of a document in XML
  irs bulk N                      makes and audits the schedules of 1 to 500 built-in documents

DOC is a document of terms and FLOWS one of cash flows: FpML XML where the name ends in .xml, else FpML
carried as JSON. FIX and DAILY are files of fixings, or - for none. CAL.. are 0 to 16 calendar files.
DATE is YYYY-MM-DD, FROM too, or - for all dates; STREAM is a number from 1; STEP, LOW and HIGH are
periods such as 1D or 3M.

Status  0 done                                 5 a file couldn't be read
        1 the cash flows depart                6 standard output couldn't be written
        2 a rule is broken                     7 there wasn't enough memory
        3 a file is at fault                   8 a file is too long
        4 the words are no listed command      9 a word isn't text
On each but 0 standard error says what the line on standard output means.

docs/FORMATS.md describes documents, files and texts, docs/RULES.md the rules.
";

/// What `irs --version` prints: the program's version, that of the schedule text, and the logic sum of the
/// kit that proves it. `tools/version` compares them with VERSION and with the kit that is here.
pub const VERSION: &str = "\
irs 1.0.0, schedule text 2
kit logic dac8208d650f15bf
";
