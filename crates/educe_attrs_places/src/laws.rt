//! The laws of attributes: each function does nothing, and its contract is the law.
ghost use Rattle.educe_attrs_places.specs.Reports.{ReportLaws};
ghost use Rattle.educe_attrs_places.specs.SettingLaws.{SettingLaws};

/// Each error that has a cause of attributes has a message. If the attributes stand among tokens, it
/// starts where one of them starts or ends, or at the beginning of the source, and so does the rank
/// that a field's attributes give.
pub fn report_laws()
    ensures { ReportLaws }
{}

/// A meta says one thing. Where attributes have no cause of rejection, the settings are exactly
/// what they say. The tokens of a method are among those of the attributes, or are those of the
/// text of a string among them.
pub fn setting_laws()
    ensures { SettingLaws }
{}
