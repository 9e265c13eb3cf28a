//! The listed commands, by their words. No standard has such commands, so they are our rule.
//!
//! `check DOC CAL..` asks whether a document keeps every rule, without fixings. `schedule DOC FIX CAL..` asks
//! for its schedule. `audit DOC FIX FLOWS CAL..` asks whether the cash flows of FLOWS agree with that
//! schedule. `breaks FROM DOC FIX FLOWS CAL..` asks for each break between them, for what is due from a day
//! on, or with `-` for all. `emit DOC FIX CAL..` asks for the schedule as cash flows, and
//! `emit-xml DOC FIX CAL..` for the same in FpML XML.
//! `accrue DATE DOC FIX CAL..` asks what has accrued on a day in each stream of that schedule.
//! `net DOC FIX CAL..` asks what falls due between the two parties. `observations STREAM DOC FIX CAL..` asks
//! for the days and the daily rates of each rate of a stream. `overnight STREAM DOC DAILY CAL..` asks for the
//! rates that the daily rates of DAILY give for the periods of a stream.
//! `average STREAM KIND STEP DOC FIX CAL..` asks for the averages of its rates over its periods.
//! `interpolate STREAM SIDE LOW HIGH DOC FIX CAL..` asks for the rate of its stub on a side between those of
//! two tenors. `-` as FIX or DAILY means no fixings. Each command takes 0 to 16 calendars.
//!
//! `bulk N` adds up the schedules of N documents of its own, and names no file. `carrier DOC` asks for the
//! value of a document in XML as JSON; the name of DOC ends in `.xml`.
//!
//! A document or cash flows in a file with a name that ends in `.xml` are FpML XML, otherwise JSON.
//!
//! A command is data: the number of its parameters, and the roles of its files in the order of the
//! words. To these comes the most calendars that may follow.
ghost use Rattle.std.specs.Prelude.{◌≡◌, ◌≤◌, ◌+◌, map, length, option_map, IfOk, IfSome, IfNone};
ghost use Rattle.irs_cli.specs.Commands.{word_texts, command_of, params_of, roles_of, calendars_of, may_have_words};
ghost use Rattle.irs_cli.specs.Commands.{role_at, is_file, IsRequest, files_from};
ghost use Rattle.irs_cli.specs.Private.Fetching.{IsCommand, IsCommandAs, asked_by, wanted_by, most_words};

use crate::params::{
    accrue_of, average_of, breaks_of, bulk_of, carrier_of, interpolate_of, observations_of,
    overnight_of,
};
use irs_answers::Task;
use irs_base::{MOST_FILES, Memory};
use std::alloc::Global;

/// A command by its name.
#[derive(Clone, Copy)]
pub(crate) enum Kind {
    /// `check`: whether a document keeps every rule.
    Check,
    /// `schedule`: the schedule of a document.
    Schedule,
    /// `audit`: whether cash flows agree with a schedule.
    Audit,
    /// `breaks`: each break between cash flows and a schedule.
    Breaks,
    /// `bulk`: the sums over many schedules.
    Bulk,
    /// `emit`: a schedule as cash flows (FpML `cashflows`).
    Emit,
    /// `emit-xml`: the same cash flows in FpML XML.
    EmitXml,
    /// `accrue`: what has accrued on a day.
    Accrue,
    /// `net`: what falls due between the two parties.
    Net,
    /// `observations`: the days that each rate is made of.
    Observations,
    /// `overnight`: rates compounded from daily rates.
    Overnight,
    /// `average`: averages of observed rates.
    Average,
    /// `interpolate`: the rate of a stub between those of two tenors.
    Interpolate,
    /// `carrier`: the value of a document in XML, as JSON.
    Carrier,
}

/// The request of a command, with its parameters.
#[derive(Clone, Copy)]
pub(crate) enum Request {
    /// A task over the files that the words name.
    OverFiles(Task),
    /// The sums over this number of documents, which no word names.
    Bulk(u32),
    /// The value of a document in XML, as JSON.
    Carrier,
}

/// What a file is to a command.
#[derive(Clone, Copy)]
pub enum Role {
    /// The document of the swap.
    Document,
    /// The observed rates; `-` means none.
    Fixings,
    /// The cash flows.
    Flows,
    /// A calendar.
    Calendar,
}

/// A file that is wanted: the place of its word after the command, from 1, its role and its name.
#[derive(Clone, Copy)]
pub(crate) struct Named<'w> {
    /// The place of its word after the command, from 1.
    pub(crate) place: u32,
    /// What the file is to the command.
    pub(crate) role: Role,
    /// The word.
    pub(crate) name: &'w str,
}

/// A listed command: its request, and the files in the order of the words.
#[derive(Drop)]
pub(crate) struct Command<'w> {
    /// The request.
    pub(crate) request: Request,
    /// The files that the words name, in the order of the words.
    pub(crate) files: Vec<Named<'w>>,
}

/// The command that a word names.
pub(crate) fn kind_of(word: &str) -> Option<Kind>
    ensures { result ≡ command_of word.now }
{
    if word == "check" {
        Some(Kind::Check)
    } else if word == "schedule" {
        Some(Kind::Schedule)
    } else if word == "audit" {
        Some(Kind::Audit)
    } else if word == "breaks" {
        Some(Kind::Breaks)
    } else if word == "bulk" {
        Some(Kind::Bulk)
    } else if word == "emit" {
        Some(Kind::Emit)
    } else if word == "emit-xml" {
        Some(Kind::EmitXml)
    } else if word == "accrue" {
        Some(Kind::Accrue)
    } else if word == "net" {
        Some(Kind::Net)
    } else if word == "observations" {
        Some(Kind::Observations)
    } else if word == "overnight" {
        Some(Kind::Overnight)
    } else if word == "average" {
        Some(Kind::Average)
    } else if word == "interpolate" {
        Some(Kind::Interpolate)
    } else if word == "carrier" {
        Some(Kind::Carrier)
    } else {
        None
    }
}

impl Kind {
    /// How many words after the command are parameters.
    pub(crate) fn params(self) -> usize
        ensures { result ≡ params_of self }
    {
        match self {
            Kind::Check => 0,
            Kind::Schedule => 0,
            Kind::Audit => 0,
            Kind::Breaks => 1,
            Kind::Bulk => 1,
            Kind::Emit => 0,
            Kind::EmitXml => 0,
            Kind::Accrue => 1,
            Kind::Net => 0,
            Kind::Observations => 1,
            Kind::Overnight => 1,
            Kind::Average => 3,
            Kind::Interpolate => 4,
            Kind::Carrier => 0,
        }
    }

    /// The roles of the files before the calendars.
    pub(crate) fn roles(self) -> &'static [Role]
        ensures { result.now ≡ roles_of self }
    {
        match self {
            Kind::Check => &[Role::Document],
            Kind::Schedule => &[Role::Document, Role::Fixings],
            Kind::Audit => &[Role::Document, Role::Fixings, Role::Flows],
            Kind::Breaks => &[Role::Document, Role::Fixings, Role::Flows],
            Kind::Bulk => &[],
            Kind::Emit => &[Role::Document, Role::Fixings],
            Kind::EmitXml => &[Role::Document, Role::Fixings],
            Kind::Accrue => &[Role::Document, Role::Fixings],
            Kind::Net => &[Role::Document, Role::Fixings],
            Kind::Observations => &[Role::Document, Role::Fixings],
            Kind::Overnight => &[Role::Document, Role::Fixings],
            Kind::Average => &[Role::Document, Role::Fixings],
            Kind::Interpolate => &[Role::Document, Role::Fixings],
            Kind::Carrier => &[Role::Document],
        }
    }

    /// How many calendars may follow.
    fn calendars(self) -> usize
        ensures { result ≡ calendars_of self }
    {
        match self {
            Kind::Check => MOST_FILES,
            Kind::Schedule => MOST_FILES,
            Kind::Audit => MOST_FILES,
            Kind::Breaks => MOST_FILES,
            Kind::Bulk => 0,
            Kind::Emit => MOST_FILES,
            Kind::EmitXml => MOST_FILES,
            Kind::Accrue => MOST_FILES,
            Kind::Net => MOST_FILES,
            Kind::Observations => MOST_FILES,
            Kind::Overnight => MOST_FILES,
            Kind::Average => MOST_FILES,
            Kind::Interpolate => MOST_FILES,
            Kind::Carrier => 0,
        }
    }
}

/// The command that the words are, `None` exactly where they are no listed one.
pub(crate) fn command_of(alloc: Global, words: &[String]) -> Result<Option<Command<'_>>, Memory>
    ensures { IfOk result (λ o. IsCommand (word_texts words.now) (option_map asked_by o)) }
{
    let Some((word, others)) = words.split_first() else {
        return Ok(None);
    };
    let Some(kind) = kind_of(word.as_str()) else {
        return Ok(None);
    };
    command_as(alloc, kind, others)
}

// The command of a kind that the words after its name are.
fn command_as<'w>(
    alloc: Global,
    kind: Kind,
    words: &'w [String],
) -> Result<Option<Command<'w>>, Memory>
    ensures { IfOk result (λ o. IsCommandAs kind (word_texts words.now) (option_map asked_by o)) }
{
    if !counts(kind, words.len()) {
        return Ok(None);
    }
    let Some(request) = request_of(kind, words) else {
        return Ok(None);
    };
    let files = files_of(alloc, kind, &words[kind.params()..])?;
    Ok(Some(Command { request, files }))
}

/// Whether a command may have this number of words after its name.
fn counts(kind: Kind, words: usize) -> bool
    ensures { result ≡ may_have_words kind words }
{
    let least = kind.params() + kind.roles().len();
    least <= words && words <= least + kind.calendars()
}

/// What a command asks for by the words after its name.
fn request_of(kind: Kind, words: &[String]) -> Option<Request>
    ensures some { IfSome result (λ r. IsRequest kind (word_texts words.now) r) }
    ensures none { IfNone result ((r : RequestSpec) → IsRequest kind (word_texts words.now) r → ⊥) }
{
    match kind {
        Kind::Check => Some(Request::OverFiles(Task::Check)),
        Kind::Schedule => Some(Request::OverFiles(Task::Schedule)),
        Kind::Audit => Some(Request::OverFiles(Task::Audit)),
        Kind::Breaks => breaks_of(words),
        Kind::Bulk => bulk_of(words),
        Kind::Emit => Some(Request::OverFiles(Task::Emit)),
        Kind::EmitXml => Some(Request::OverFiles(Task::EmitXml)),
        Kind::Accrue => accrue_of(words),
        Kind::Net => Some(Request::OverFiles(Task::Net)),
        Kind::Observations => observations_of(words),
        Kind::Overnight => overnight_of(words),
        Kind::Average => average_of(words),
        Kind::Interpolate => interpolate_of(words),
        Kind::Carrier => carrier_of(words),
    }
}

/// The files that the words after the parameters name.
fn files_of<'w>(alloc: Global, kind: Kind, words: &'w [String]) -> Result<Vec<Named<'w>>, Memory>
    requires { length words.now ≤ most_words }
    ensures { IfOk result (λ v. map wanted_by v.items
        ≡ files_from (roles_of kind) (params_of kind + 1) 0 (word_texts words.now)) }
{
    let roles = kind.roles();
    let mut files = Vec::new(alloc);
    let mut place = kind.params() as u32 + 1;
    for (index, word) in words.iter().enumerate() {
        let role = role_at(roles, index);
        let name = word.as_str();
        if is_file(role, name) {
            files.push(Named { place, role, name })?;
        }
        place += 1;
    }
    Ok(files)
}

/// The role of the word with this index after the parameters.
fn role_at(roles: &[Role], index: usize) -> Role
    ensures { result ≡ role_at roles.now index }
{
    match roles.get(index) {
        Some(role) => *role,
        None => Role::Calendar,
    }
}

/// Whether a word names a file: `-` means no fixings.
fn is_file(role: Role, word: &str) -> bool
    ensures { result ≡ is_file role word.now }
{
    match role {
        Role::Document => true,
        Role::Fixings => word != "-",
        Role::Flows => true,
        Role::Calendar => true,
    }
}

ghost use Rattle.irs_cli.specs.declared.commands.Request.{Request as RequestSpec};
