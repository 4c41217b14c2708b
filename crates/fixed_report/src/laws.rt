//! Laws of reports. Each is the contract of a function that does nothing.

ghost use Rattle.fixed_report.specs.Laws.{GreatestHasBits, ReportIsTheOne};

/// At most one numeral is reported.
pub fn report_is_the_one()
    ensures { ReportIsTheOne }
{}

/// The reported numeral is in range, so its error has a text.
pub fn greatest_has_bits()
    ensures { GreatestHasBits }
{}
