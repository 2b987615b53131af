//! How reading and writing are related, for definitions over service data.

ghost use Rattle.std.specs.Prelude.{◌≡◌, ◌<◌, ◌^◌, ℕ, List, Ok, All};
ghost use Rattle.obcp_messages.specs.Reading.{request_of};
ghost use Rattle.obcp_messages.specs.Mirror.ReadingReports.{report_of};
ghost use Rattle.obcp_messages.specs.Report.{IsReport, IsReportData, kind_of, report_data, service_of};
ghost use Rattle.obcp_messages.specs.Request.{IsRequest, IsRequestData, request_data, subtype_of};
ghost use Rattle.obcp_messages.specs.declared.report.Report.{Report};
ghost use Rattle.ocp_profile.specs.declared.profile.Profile.{Profile};
ghost use Rattle.obcp_messages.specs.declared.request.Request.{Request};

/// The service data of a request are read as that request.
pub fn requests_are_read_back()
    ensures { (profile : Profile) (request : Request) → IsRequest profile request →
        request_of profile 18 (subtype_of request) (request_data profile request) ≡ Ok request }
{}

/// Octets that are read as a request are its service data.
pub fn read_requests_are_laid_out()
    ensures { (profile : Profile) (service subtype : ℕ) (octets : List ℕ) (request : Request) →
        All (λ octet. octet < 2 ^ 8) octets →
        request_of profile service subtype octets ≡ Ok request →
        IsRequestData profile service subtype octets request }
{}

/// The service data of a report are read as that report.
pub fn reports_are_read_back()
    ensures { (report : Report) → IsReport report →
        report_of (service_of report) (kind_of report) (report_data report) ≡ Ok report }
{}

/// Octets that are read as a report are its service data.
pub fn read_reports_are_laid_out()
    ensures { (service subtype : ℕ) (octets : List ℕ) (report : Report) →
        All (λ octet. octet < 2 ^ 8) octets → report_of service subtype octets ≡ Ok report →
        IsReportData service subtype octets report }
{}
