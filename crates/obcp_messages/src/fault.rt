//! Why service data are no report.

use thiserror::Error;

/// What is first wrong with the service data of a report, in this order.
#[derive(Clone, Copy, Debug, PartialEq, Eq, Error)]
pub enum ReportFault {
    #[error("service and subtype are none of the reports'")]
    Kind,
    /// The data have another length than the report's fields, a number is out of its range, or the
    /// identifiers of status rows do not rise.
    #[error("the data do not have the layout of the report")]
    Layout,
}
