//! Reports in words.

use arrayvec::ArrayVec;
use driver_lines::*;
use obcp_messages::{
    BAD_CODE, MAX_ROWS, PlainCode, Report, StartFault, Status, StatusRow, StatusRows, read_report,
};

/// Reads the data of a report.
pub(crate) fn read(alloc: Global, service: u8, subtype: u8, data: &[u8]) -> Answer {
    match read_report(service, subtype, data) {
        Ok(report) => show_read(alloc, &report),
        Err(fault) => name_of(alloc, fault),
    }
}

fn show_read(alloc: Global, report: &Report) -> Answer {
    let text = show(alloc, report)?;
    text!(alloc; "Ok", report.service(), report.subtype(), text.as_str())
}

fn show(alloc: Global, report: &Report) -> Answer {
    variant! { alloc, report, Report;
        Accepted { request } => Octets(request);
        NotAccepted { request, code } => Octets(request), *code;
        Started { request } => Octets(request);
        Completed { request } => Octets(request);
        NotCompleted { request, code } => Octets(request), *code;
        [Report::NotStarted { request, fault }] => show_not_started(alloc, request, *fault);
        [Report::Status { rows }] => show_rows(alloc, rows.as_slice());
    }
}

fn show_not_started(alloc: Global, request: &[u8], fault: StartFault) -> Answer {
    let request = Both("NotStarted", Octets(request));
    match fault {
        StartFault::BadCode { fault, slot } => text!(alloc; request, BAD_CODE, fault, slot),
        StartFault::Plain(code) => text!(alloc; request, code.code()),
    }
}

fn show_rows(alloc: Global, rows: &[StatusRow]) -> Answer {
    let mut text = String::from_str(alloc, "Status")?;
    for row in rows {
        write!(text, " {} {:?}", row.id, row.status)?;
    }
    Ok(text)
}

/// The report in words; none if its parts are no report's.
pub(crate) fn report_of(alloc: Global, words: &[&str]) -> Result<Option<Report>, Fault> {
    table! { alloc, words;
        "Accepted" request: id => Ok(Some(Report::Accepted { request }));
        "NotAccepted" request: id code: number => Ok(Some(Report::NotAccepted { request, code }));
        "Started" request: id => Ok(Some(Report::Started { request }));
        "NotStarted" request: id code: number => Ok(not_started(request, code));
        "NotStarted" request: id code: number fault: number slot: number => {
            bad_code(request, code, StartFault::BadCode { fault, slot })
        };
        "Completed" request: id => Ok(Some(Report::Completed { request }));
        "NotCompleted" request: id code: number => Ok(Some(Report::NotCompleted { request, code }));
        "Status" [rows] => status_report(rows);
    }
}

fn bad_code(request: [u8; 4], code: u16, fault: StartFault) -> Result<Option<Report>, Fault> {
    match code {
        BAD_CODE => Ok(Some(Report::NotStarted { request, fault })),
        _ => Err(Fault::Syntax),
    }
}

fn not_started(request: [u8; 4], code: u16) -> Option<Report> {
    let fault = StartFault::Plain(PlainCode::new(code)?);
    Some(Report::NotStarted { request, fault })
}

fn status_report(words: &[&str]) -> Result<Option<Report>, Fault> {
    let mut rows: ArrayVec<StatusRow, MAX_ROWS> = ArrayVec::new();
    for row in words.chunks(2) {
        if rows.try_push(status_row(row)?).is_err() {
            return Ok(None);
        }
    }
    match StatusRows::new(rows) {
        Some(rows) => Ok(Some(Report::Status { rows })),
        None => Ok(None),
    }
}

fn status_row(words: &[&str]) -> Result<StatusRow, Fault> {
    let [id, status] = *words else {
        return Err(Fault::Syntax);
    };
    Ok(StatusRow {
        id: number_of(id)?,
        status: value_of(names!(Status: Inactive, Running, Held), status)?,
    })
}
