//! Laws of the names of formats, each the contract of a function that does nothing.

ghost use Rattle.fixed_names.specs.Laws.{FormatTextIsAName, NameIsTheOne, ToolNameIsTheOne, ToolTextIsAName};

/// A word names at most one format in other tools.
pub fn tool_name_is_the_one()
    ensures { ToolNameIsTheOne }
{}

/// A word names at most one format.
pub fn name_is_the_one()
    ensures { NameIsTheOne }
{}

/// The name of a format in each form of another tool names that format.
pub fn tool_text_is_a_name()
    ensures { ToolTextIsAName }
{}

/// The text of a format, such as `I1F15`, names it.
pub fn format_text_is_a_name()
    ensures { FormatTextIsAName }
{}
