//! Reading a report.

ghost use Rattle.std.specs.Prelude.{◌≡◌, ◌≤◌, ◌*◌, ◌==◌, if◌then◌else◌, length, take, drop, Ok, Err, IfOk, IfErr};
ghost use Rattle.byteorder.specs.Endian.{big_number};
ghost use Rattle.obcp_messages.specs.Report.{IsReportData, HasReportFault};
ghost use Rattle.obcp_messages.specs.declared.report.Report.{Report};
ghost use Rattle.obcp_messages.specs.declared.fault.ReportFault.TheVariants.{Layout};
ghost use Rattle.std.specs.Option.{option_map};
ghost use Rattle.obcp_messages.specs.Mirror.ReadingReports.{with_fault, with_rows, ordered_rows, status_at, rows_in, verification_in, report_of};

use crate::fault::ReportFault;
use crate::report::{PlainCode, Report, STATUS_REPORT, StartFault, VERIFICATION};
use crate::request::SERVICE;
use crate::rows::{MAX_ROWS, StatusRows};
use arrayvec::ArrayVec;
use byteorder::{BigEndian, ByteOrder};
use obcp_types::{Status, StatusRow};

/// The request identifier at the beginning of the data.
fn leading_request(octets: &[u8]) -> [u8; 4]
    requires { 4 ≤ length octets.now }
    ensures { result ≡ take 4 octets.now }
{
    let mut request = [0; 4];
    request.copy_from_slice(&octets[..4]);
    request
}

/// The one field of data that are a request identifier alone.
fn request_alone(octets: &[u8]) -> Result<[u8; 4], ReportFault>
    ensures { result ≡ (if length octets.now == 4 then Ok (take 4 octets.now) else Err Layout) }
{
    if octets.len() != 4 {
        return Err(ReportFault::Layout);
    }
    Ok(leading_request(octets))
}

/// The fields of data that are a request identifier and a failure code.
fn request_and_code(octets: &[u8]) -> Result<([u8; 4], u16), ReportFault>
    ensures { result ≡ (if length octets.now == 6
        then Ok (take 4 octets.now, big_number 2 (drop 4 octets.now)) else Err Layout) }
{
    if octets.len() != 6 {
        return Err(ReportFault::Layout);
    }
    Ok((leading_request(octets), BigEndian::read_u16(&octets[4..])))
}

fn failed_start(octets: &[u8]) -> Result<Report, ReportFault>
    ensures { result ≡ with_fault octets.now }
{
    if octets.len() < 6 {
        return Err(ReportFault::Layout);
    }
    let request = leading_request(octets);
    let code = BigEndian::read_u16(&octets[4..]);
    let fault = match PlainCode::new(code) {
        Some(plain) if octets.len() == 6 => StartFault::Plain(plain),
        None if octets.len() == 9 => StartFault::BadCode {
            fault: octets[6],
            slot: BigEndian::read_u16(&octets[7..]),
        },
        _ => return Err(ReportFault::Layout),
    };
    Ok(Report::NotStarted { request, fault })
}

/// The status of a number.
fn status(code: u8) -> Option<Status>
    ensures { result ≡ status_at code }
{
    match code {
        0 => Some(Status::Inactive),
        1 => Some(Status::Running),
        2 => Some(Status::Held),
        _ => None,
    }
}

/// The rows in `count` times 3 octets, if each status number is that of a status.
fn rows(octets: &[u8], count: usize) -> Option<ArrayVec<StatusRow, MAX_ROWS>>
    requires most { count ≤ MAX_ROWS }
    requires whole { length octets.now ≡ 3 * count }
    ensures { option_map (λ rows. rows.items) result ≡ rows_in count octets.now }
{
    let mut rows = ArrayVec::new();
    for i in 0..count {
        let row = &octets[3 * i..];
        let id = BigEndian::read_u16(row);
        let status = status(row[2])?;
        rows.push(StatusRow { id, status });
    }
    Some(rows)
}

/// The status report of these rows, if their identifiers rise.
#[tactic(auto, using(crate::proofs::RowOctets::rise_rising, crate::proofs::RowOctets::rising_rise))]
fn in_order(rows: ArrayVec<StatusRow, MAX_ROWS>) -> Result<Report, ReportFault>
    ensures { result ≡ ordered_rows rows.items }
{
    match StatusRows::new(rows) {
        Some(rows) => Ok(Report::Status { rows }),
        None => Err(ReportFault::Layout),
    }
}

fn status_report(octets: &[u8]) -> Result<Report, ReportFault>
    ensures { result ≡ with_rows octets.now }
{
    if octets.is_empty() {
        return Err(ReportFault::Layout);
    }
    let count = octets[0] as usize;
    let rest = &octets[1..];
    if count > MAX_ROWS || rest.len() != 3 * count {
        return Err(ReportFault::Layout);
    }
    let Some(rows) = rows(rest, count) else {
        return Err(ReportFault::Layout);
    };
    in_order(rows)
}

/// The report of service 1 and this subtype that the data are.
fn verification(subtype: u8, octets: &[u8]) -> Result<Report, ReportFault>
    ensures { result ≡ verification_in subtype octets.now }
{
    match subtype {
        1 => Ok(Report::Accepted {
            request: request_alone(octets)?,
        }),
        2 => {
            let (request, code) = request_and_code(octets)?;
            Ok(Report::NotAccepted { request, code })
        }
        3 => Ok(Report::Started {
            request: request_alone(octets)?,
        }),
        4 => failed_start(octets),
        7 => Ok(Report::Completed {
            request: request_alone(octets)?,
        }),
        8 => {
            let (request, code) = request_and_code(octets)?;
            Ok(Report::NotCompleted { request, code })
        }
        _ => Err(ReportFault::Kind),
    }
}

/// The report of this service and subtype that the data are.
fn report_in(service: u8, subtype: u8, octets: &[u8]) -> Result<Report, ReportFault>
    ensures { result ≡ report_of service subtype octets.now }
{
    match service {
        VERIFICATION => verification(subtype, octets),
        SERVICE if subtype == STATUS_REPORT => status_report(octets),
        _ => Err(ReportFault::Kind),
    }
}

/// The report of a telemetry packet's service, subtype and data. Refused as `Kind` if service and
/// subtype are none of the reports', else as `Layout` if the data have another length than the
/// report's fields, a number is out of its range, or the identifiers of status rows do not rise
/// (ECSS-E-ST-70-41C, 8.1 and 8.18).
pub fn read_report(service: u8, subtype: u8, octets: &[u8]) -> Result<Report, ReportFault>
    ensures found { IfOk result (IsReportData service subtype octets.now) }
    ensures only { (report : Report) →
        IsReportData service subtype octets.now report → result ≡ Ok report }
    ensures fault { IfErr result (HasReportFault service subtype octets.now) }
    // The same as a function, for definitions over the octets of reports.
    ensures reads { result ≡ report_of service subtype octets.now }
{
    report_in(service, subtype, octets)
}
