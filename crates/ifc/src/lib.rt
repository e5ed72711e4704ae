// The calls as C makes them (crate ifc_c exports them): numbers and bytes in, numbers out. Nothing but passing on.
#![tactic(auto)]

ghost use Rattle.bulk.specs.Bulk.{ReportsTo};
ghost use Rattle.ifc.specs.Exports.{session_of, CheckTo, OpenTo, ReportTo, AdvanceTo, ListTo, ServerTo, InformationTo, ShowTo, PlainTo};

use bulk::report_all;
use listing::list as list_into;
use lookups::{check, information, server};
use octets::one_if;
use plain::plain;
use route::advance;
use rows::Given;
use session::{Session, open, report as report_on};
use show::show;

pub fn ifc_check(image: &[u8], place: &mut u32) -> u32
    ensures { CheckTo image.now result place.new }
{
    let checked = check(image);
    *place = checked.place;
    checked.refusal
}

pub fn ifc_open(
    wanted: u32,
    case: &mut u32,
    state: &mut u32,
    forwarded: &mut u32,
    last: &mut u32,
    handling: &mut u32,
) -> u32
    ensures { OpenTo wanted result case.new state.new forwarded.new last.new handling.new }
{
    let opened = open(wanted);
    *case = opened.session.case;
    *state = opened.session.state;
    *forwarded = opened.session.forwarded;
    *last = opened.session.last;
    *handling = opened.session.handling;
    opened.refusal
}

pub fn ifc_advance(
    image: &[u8],
    request: &[u8],
    case: u32,
    state: &mut u32,
    forwarded: &mut u32,
    last: &mut u32,
    handling: &mut u32,
    place: &mut u32,
    outcome: &mut u32,
    criterion: &mut u32,
    priority: &mut u32,
    examined: &mut u32,
    trials: &mut u32,
) -> u32
    ensures { AdvanceTo (session_of case state.old forwarded.old last.old handling.old) image.now request.now result state.new forwarded.new last.new handling.new place.new outcome.new criterion.new priority.new examined.new trials.new }
{
    let x = Session {
        case,
        state: *state,
        forwarded: *forwarded,
        last: *last,
        handling: *handling,
    };
    let a = advance(x, image, request);
    *state = a.session.state;
    *forwarded = a.session.forwarded;
    *last = a.session.last;
    *handling = a.session.handling;
    *place = a.place;
    *outcome = a.outcome;
    *criterion = a.number;
    *priority = a.priority;
    *examined = a.examined;
    *trials = a.trials;
    a.refusal
}

pub fn ifc_report(
    case: u32,
    state: &mut u32,
    forwarded: u32,
    last: u32,
    handling: u32,
    report: u32,
) -> u32
    ensures { ReportTo case state.old forwarded last handling report result state.new }
{
    let x = Session {
        case,
        state: *state,
        forwarded,
        last,
        handling,
    };
    let reported = report_on(x, report);
    *state = reported.session.state;
    reported.refusal
}

pub fn ifc_list(
    image: &[u8],
    request: &[u8],
    case: u32,
    registration: u32,
    list: &mut [u8],
    place: &mut u32,
    count: &mut u32,
    examined: &mut u32,
    trials: &mut u32,
) -> u32
    ensures { ListTo image.now request.now case registration list.old list.new result place.new count.new examined.new trials.new }
{
    let given = Given { case, registration };
    let a = list_into(image, request, given, list);
    *place = a.place;
    *count = a.count;
    *examined = a.examined;
    *trials = a.trials;
    a.refusal
}

pub fn ifc_server(
    image: &[u8],
    criterion: u32,
    place: &mut u32,
    start: &mut u32,
    size: &mut u32,
) -> u32
    ensures { ServerTo image.now criterion result place.new start.new size.new }
{
    let name = server(image, criterion);
    *place = name.place;
    *start = name.start;
    *size = name.size;
    name.refusal
}

// Yes and no as C has them.
pub fn ifc_information(
    image: &[u8],
    criterion: u32,
    place: &mut u32,
    present: &mut u32,
    start: &mut u32,
    size: &mut u32,
) -> u32
    ensures { InformationTo image.now criterion result place.new present.new start.new size.new }
{
    let info = information(image, criterion);
    *place = info.place;
    *present = one_if(info.present);
    *start = info.start;
    *size = info.size;
    info.refusal
}

pub fn ifc_show(
    image: &[u8],
    request: &[u8],
    row: u32,
    place: &mut u32,
    found: &mut u32,
    field: &mut u32,
    value: &mut u32,
    start: &mut u32,
    size: &mut u32,
) -> u32
    ensures { ShowTo image.now request.now row result place.new found.new field.new value.new start.new size.new }
{
    let shown = show(image, request, row);
    *place = shown.place;
    *found = shown.found;
    *field = shown.field;
    *value = shown.value;
    *start = shown.start;
    *size = shown.size;
    shown.refusal
}

pub fn ifc_plain(
    pattern: &[u8],
    text: &[u8],
    found: &mut u32,
    start: &mut u32,
    size: &mut u32,
) -> u32
    ensures { PlainTo pattern.now text.now result found.new start.new size.new }
{
    let matched = plain(pattern, text);
    *found = one_if(matched.found);
    *start = matched.start;
    *size = matched.size;
    matched.refusal
}

// The list is lent on as it came.
pub fn ifc_reports(sessions: &mut [Session], reports: &[u32], refusals: &mut [u32]) -> u32
    ensures { ReportsTo sessions.old reports.now refusals.old result sessions.new refusals.new }
{
    report_all(sessions, reports, refusals)
}
