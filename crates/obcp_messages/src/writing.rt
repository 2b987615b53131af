//! Writing requests and reports.

ghost use Rattle.std.specs.Prelude.{◌≡◌, ◌<◌, ◌+◌, ◌++◌, ◌≤◌, length, OnOk, OnErr, vec_len, vec_capacity};
ghost use Rattle.arrayvec.specs.ArrayVec.{array_vec_len};
ghost use Rattle.obcp_messages.specs.Request.{HasFittingBudget, IsRequest, IsRequestData, budget_data, request_data, subtype_of};
ghost use Rattle.obcp_messages.specs.Report.{IsReport, IsReportData, IsStartFault, report_data, service_of, kind_of, fault_data};

use crate::fields::{Fields, MAX_FIELDS_LENGTH, put, put_rows, put_words};
use crate::report::{BAD_CODE, Report, StartFault};
use crate::request::Request;
use arrayvec::ArrayVec;
use ocp_profile::Profile;
use std::alloc::{AllocError, Allocator};

/// The budget of an activation, for which profile Two alone has a field.
fn put_budget(profile: Profile, fields: &mut Fields, budget: u32)
    requires { array_vec_len fields.old + 4 ≤ MAX_FIELDS_LENGTH }
    ensures { fields.new.items ≡ fields.old.items ++ budget_data profile budget }
{
    match profile {
        Profile::One => {}
        Profile::Two => put(fields, &budget.to_be_bytes()),
    }
}

/// The fields of a request, and the octets at its end.
fn request_parts<'a>(profile: Profile, request: &Request<'a>) -> (Fields, &'a [u8])
    requires { HasFittingBudget profile request.now }
    ensures octets { result.0.items ++ result.1.now ≡ request_data profile request.now }
    ensures in_range { IsRequest profile request.now }
{
    let mut fields = ArrayVec::new();
    let octets: &[u8] = match request {
        Request::Load { id, code } => {
            put(&mut fields, &id.to_be_bytes());
            put(&mut fields, &(code.octets().len() as u16).to_be_bytes());
            code.octets()
        }
        Request::Activate {
            id,
            budget,
            arguments,
        } => {
            put(&mut fields, &id.to_be_bytes());
            put_budget(profile, &mut fields, *budget);
            put(
                &mut fields,
                &(arguments.octets().len() as u16).to_be_bytes(),
            );
            arguments.octets()
        }
        Request::Stop { id, step } | Request::Suspend { id, step } => {
            put(&mut fields, &id.to_be_bytes());
            put(&mut fields, &step.to_be_bytes());
            &[]
        }
        Request::Unload { id } | Request::Resume { id } | Request::Abort { id } => {
            put(&mut fields, &id.to_be_bytes());
            &[]
        }
        Request::Communicate { id, words } => {
            put(&mut fields, &id.to_be_bytes());
            put(&mut fields, &[words.as_slice().len() as u8]);
            put_words(&mut fields, words.as_slice());
            &[]
        }
        Request::Status => &[],
    };
    (fields, octets)
}

/// Appends the service data of a request (ECSS-E-ST-70-41C, 8.18). An activation has a field for
/// its budget under profile Two; under One its budget must be 0. The capacity never shrinks.
pub fn write_request<A: Allocator>(
    profile: Profile,
    request: &Request,
    out: &mut Vec<u8, A>,
) -> Result<(), AllocError>
    requires { HasFittingBudget profile request.now }
    ensures written { OnOk result
        (out.new.items ≡ out.old.items ++ request_data profile request.now) }
    ensures laid_out { IsRequestData profile 18 (subtype_of request.now)
        (request_data profile request.now) request.now }
    // It is refused only if the vector had to grow; the vector and its capacity are then unchanged.
    ensures memory { OnErr result
        (vec_capacity out.old < vec_len out.old + length (request_data profile request.now)) }
    ensures err { OnErr result (out.new.items ≡ out.old.items) }
    ensures same_capacity { OnErr result (vec_capacity out.new ≡ vec_capacity out.old) }
    ensures capacity { vec_capacity out.old ≤ vec_capacity out.new }
{
    let (fields, octets) = request_parts(profile, request);
    out.reserve(fields.len() + octets.len())?;
    out.extend_from_slice(fields.as_slice()).unwrap();
    out.extend_from_slice(octets).unwrap();
    Ok(())
}

/// The fields of a failure: its code, and the data of code 18.
fn put_fault(fields: &mut Fields, fault: &StartFault)
    requires { length fields.old.items ≡ 4 }
    ensures octets { fields.new.items ≡ fields.old.items ++ fault_data fault.now }
    ensures in_range { IsStartFault fault.now }
{
    match fault {
        StartFault::BadCode { fault, slot } => {
            put(fields, &BAD_CODE.to_be_bytes());
            put(fields, &[*fault]);
            put(fields, &slot.to_be_bytes());
        }
        StartFault::Plain(code) => put(fields, &code.code().to_be_bytes()),
    }
}

/// The service data of a report (ECSS-E-ST-70-41C, 8.1 and 8.18).
pub fn report_fields(report: &Report) -> Fields
    ensures octets { result.items ≡ report_data report.now }
    ensures in_range { IsReport report.now }
{
    let mut fields = ArrayVec::new();
    match report {
        Report::Accepted { request }
        | Report::Started { request }
        | Report::Completed { request } => {
            put(&mut fields, request);
        }
        Report::NotAccepted { request, code } | Report::NotCompleted { request, code } => {
            put(&mut fields, request);
            put(&mut fields, &code.to_be_bytes());
        }
        Report::NotStarted { request, fault } => {
            put(&mut fields, request);
            put_fault(&mut fields, fault);
        }
        Report::Status { rows } => {
            put(&mut fields, &[rows.as_slice().len() as u8]);
            put_rows(&mut fields, rows.as_slice());
        }
    }
    fields
}

/// Appends the service data of a report (ECSS-E-ST-70-41C, 8.1 and 8.18). The capacity never
/// shrinks.
pub fn write_report<A: Allocator>(report: &Report, out: &mut Vec<u8, A>) -> Result<(), AllocError>
    ensures written { OnOk result (out.new.items ≡ out.old.items ++ report_data report.now) }
    ensures laid_out { IsReportData (service_of report.now) (kind_of report.now)
        (report_data report.now) report.now }
    // It is refused only if the vector had to grow; the vector and its capacity are then unchanged.
    ensures memory { OnErr result
        (vec_capacity out.old < vec_len out.old + length (report_data report.now)) }
    ensures err { OnErr result (out.new.items ≡ out.old.items) }
    ensures same_capacity { OnErr result (vec_capacity out.new ≡ vec_capacity out.old) }
    ensures capacity { vec_capacity out.old ≤ vec_capacity out.new }
{
    let fields = report_fields(report);
    out.reserve(fields.len())?;
    out.extend_from_slice(fields.as_slice()).unwrap();
    Ok(())
}
