//! Laws of what C gets. The functions do nothing when they run: their contracts are the laws.
ghost use Rattle.ocp_c.specs.Bounds.{RequestsHaveFewReports, DrainsHaveFewReports};

/// A request has at most four reports of at most 68 octets, and a drain at most 64 of at most 25.
pub fn reports_are_few()
    ensures requests { RequestsHaveFewReports }
    ensures drains { DrainsHaveFewReports }
{}
