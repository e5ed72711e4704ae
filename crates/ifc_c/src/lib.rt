// What C links: each call of `ifc` under its name, with the same clauses. Nothing is decided here.
#![tactic(auto)]

ghost use Rattle.bulk.specs.Bulk.{ReportsTo};
ghost use Rattle.ifc.specs.Exports.{session_of, CheckTo, OpenTo, ReportTo, AdvanceTo, ListTo, ServerTo, InformationTo, ShowTo, PlainTo};

use session::Session;

#[unsafe(no_mangle)]
pub extern "C" fn ifc_check(image: &[u8], place: &mut u32) -> u32
    ensures { CheckTo image.now result place.new }
{
    ifc::ifc_check(image, place)
}

#[unsafe(no_mangle)]
pub extern "C" fn ifc_open(
    wanted: u32,
    case: &mut u32,
    state: &mut u32,
    forwarded: &mut u32,
    last: &mut u32,
    handling: &mut u32,
) -> u32
    ensures { OpenTo wanted result case.new state.new forwarded.new last.new handling.new }
{
    ifc::ifc_open(wanted, case, state, forwarded, last, handling)
}

#[unsafe(no_mangle)]
pub extern "C" fn ifc_advance(
    image: &[u8],
    request: &[u8],
    case: u32,
    state: &mut u32,
    forwarded: &mut u32,
    last: &mut u32,
    handling: &mut u32,
    place: &mut u32,
    outcome: &mut u32,
    criterion: &mut u32,
    priority: &mut u32,
    examined: &mut u32,
    trials: &mut u32,
) -> u32
    ensures { AdvanceTo (session_of case state.old forwarded.old last.old handling.old) image.now request.now result state.new forwarded.new last.new handling.new place.new outcome.new criterion.new priority.new examined.new trials.new }
{
    ifc::ifc_advance(
        image, request, case, state, forwarded, last, handling, place, outcome, criterion,
        priority, examined, trials,
    )
}

#[unsafe(no_mangle)]
pub extern "C" fn ifc_report(
    case: u32,
    state: &mut u32,
    forwarded: u32,
    last: u32,
    handling: u32,
    report: u32,
) -> u32
    ensures { ReportTo case state.old forwarded last handling report result state.new }
{
    ifc::ifc_report(case, state, forwarded, last, handling, report)
}

#[unsafe(no_mangle)]
pub extern "C" fn ifc_list(
    image: &[u8],
    request: &[u8],
    case: u32,
    registration: u32,
    list: &mut [u8],
    place: &mut u32,
    count: &mut u32,
    examined: &mut u32,
    trials: &mut u32,
) -> u32
    ensures { ListTo image.now request.now case registration list.old list.new result place.new count.new examined.new trials.new }
{
    ifc::ifc_list(
        image,
        request,
        case,
        registration,
        list,
        place,
        count,
        examined,
        trials,
    )
}

#[unsafe(no_mangle)]
pub extern "C" fn ifc_server(
    image: &[u8],
    criterion: u32,
    place: &mut u32,
    start: &mut u32,
    size: &mut u32,
) -> u32
    ensures { ServerTo image.now criterion result place.new start.new size.new }
{
    ifc::ifc_server(image, criterion, place, start, size)
}

#[unsafe(no_mangle)]
pub extern "C" fn ifc_information(
    image: &[u8],
    criterion: u32,
    place: &mut u32,
    present: &mut u32,
    start: &mut u32,
    size: &mut u32,
) -> u32
    ensures { InformationTo image.now criterion result place.new present.new start.new size.new }
{
    ifc::ifc_information(image, criterion, place, present, start, size)
}

#[unsafe(no_mangle)]
pub extern "C" fn ifc_show(
    image: &[u8],
    request: &[u8],
    row: u32,
    place: &mut u32,
    found: &mut u32,
    field: &mut u32,
    value: &mut u32,
    start: &mut u32,
    size: &mut u32,
) -> u32
    ensures { ShowTo image.now request.now row result place.new found.new field.new value.new start.new size.new }
{
    ifc::ifc_show(image, request, row, place, found, field, value, start, size)
}

#[unsafe(no_mangle)]
pub extern "C" fn ifc_plain(
    pattern: &[u8],
    text: &[u8],
    found: &mut u32,
    start: &mut u32,
    size: &mut u32,
) -> u32
    ensures { PlainTo pattern.now text.now result found.new start.new size.new }
{
    ifc::ifc_plain(pattern, text, found, start, size)
}

#[unsafe(no_mangle)]
pub extern "C" fn ifc_reports(
    sessions: &mut [Session],
    reports: &[u32],
    refusals: &mut [u32],
) -> u32
    ensures { ReportsTo sessions.old reports.now refusals.old result sessions.new refusals.new }
{
    ifc::ifc_reports(sessions, reports, refusals)
}
