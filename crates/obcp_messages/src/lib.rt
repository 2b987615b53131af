//! Requests and status reports of service 18 (on-board control procedures), and reports of service
//! 1 (request verification) of ECSS-E-ST-70-41C: the service data of their packets.
#![tactic(auto)]

mod fault;
mod fields;
pub mod laws;
mod payload;
mod reading_reports;
mod reading_requests;
mod report;
mod request;
mod rows;
mod writing;

pub use fault::ReportFault;
pub use fields::{Fields, MAX_FIELDS_LENGTH};
pub use obcp_types::{RequestFault, Status, StatusRow};
pub use payload::{Arguments, Code, MAX_ARGUMENTS_LENGTH, MAX_CODE_LENGTH, MAX_WORDS, Words};
pub use reading_reports::read_report;
pub use reading_requests::read_request;
pub use report::{BAD_CODE, PlainCode, Report, STATUS_REPORT, StartFault, VERIFICATION};
pub use request::{Request, SERVICE};
pub use rows::{MAX_ROWS, StatusRows};
pub use writing::{report_fields, write_report, write_request};
